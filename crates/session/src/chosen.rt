// RULES.md, "Trace and listing": a trace has one engine, or two, of which one is chosen.
ghost use Rattle.std.specs.Prelude.{◌≡◌};
ghost use Rattle.session.specs.Chosen.{chosen_at, two_of, turned_of, called_of};

use record::engines::names;

// The only engine, or engine 1 or 2 of two: `Only` is an engine too, and not the lack of one.
#[derive(Clone, Copy)]
pub enum Chosen {
    Only,
    First,
    Second,
}

// What CF and C2 choose.
pub fn chosen_at_start(two: bool) -> Chosen
    ensures { result ≡ chosen_at two }
{
    if two { Chosen::First } else { Chosen::Only }
}

// Whether there are two engines.
pub fn is_two(chosen: Chosen) -> bool
    ensures { result ≡ two_of chosen }
{
    !matches!(chosen, Chosen::Only)
}

// The other one of two.
pub fn turned(chosen: Chosen) -> Chosen
    ensures { result ≡ turned_of chosen }
{
    match chosen {
        Chosen::Only => Chosen::Only,
        Chosen::First => Chosen::Second,
        Chosen::Second => Chosen::First,
    }
}

// Whether the record at `at` is for the other one.
pub fn called(chosen: Chosen, input: &[u8], at: usize) -> bool
    ensures { result ≡ called_of chosen input.now at }
{
    match chosen {
        Chosen::Only => false,
        Chosen::First => names(input, at, 2),
        Chosen::Second => names(input, at, 1),
    }
}
