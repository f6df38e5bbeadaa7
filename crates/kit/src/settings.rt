// RULES.md, answer 1: the widths and burst lengths an engine can be built with.
ghost use Rattle.std.specs.Prelude.{◌≡◌};
ghost use Rattle.kit.specs.Settings.{legal_width, legal_beats, legal_of};

// Width in bytes and beats of a burst.
#[derive(Clone, Copy)]
pub struct Settings {
    pub width: u32,
    pub beats: u32,
}

#[tactic(auto, unfolding(crate::specs::Settings::legal_width))]
fn legal_width(width: u32) -> bool
    ensures { result ≡ legal_width width }
{
    matches!(width, 4 | 8 | 16 | 32 | 64 | 128)
}

#[tactic(auto, unfolding(crate::specs::Settings::legal_beats))]
fn legal_beats(beats: u32) -> bool
    ensures { result ≡ legal_beats beats }
{
    matches!(beats, 2 | 4 | 8 | 16 | 32 | 64 | 128 | 256)
}

// Whether width and beats are both on RULES.md's lists.
pub fn legal(settings: Settings) -> bool
    ensures { result ≡ legal_of settings }
{
    legal_width(settings.width) && legal_beats(settings.beats)
}
