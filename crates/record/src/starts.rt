// RULES.md, "Trace and listing": what a trace starts with.
ghost use Rattle.std.specs.Prelude.{◌≡◌};
ghost use Rattle.record.specs.Starts.{settings_at};

use crate::found::whole;
use crate::mark;
use kit::word;

// Whether the two letters of CF or C2 stand at `at`, whatever comes after them.
pub fn settings_at(input: &[u8], at: usize) -> bool
    ensures { result ≡ settings_at input.now at }
{
    whole(input, at, 2).is_some() && matches!(word::load_half(input, at), mark::CF | mark::C2)
}
