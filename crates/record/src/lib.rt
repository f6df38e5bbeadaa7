// RULES.md, "Trace and listing": reading a record gives it and the next place, or the refusal.
#![tactic(auto)]

ghost use Rattle.std.specs.Prelude.{◌≡◌};
ghost use Rattle.record.specs.Reading.{reading_of};

mod bodies;
pub mod clock;
pub mod engines;
pub mod follows;
mod found;
pub mod mark;
mod memory;
pub mod reading;
pub mod size;
pub mod starts;

use found::whole;
use kit::word;
use reading::Reading;

// What `read` gives in a trace of two engines, or of one: compiled once for each, since a trace asks this of every record.
#[tactic(auto, unfolding(crate::specs::Mark::kind_of, crate::specs::Reading::reading_of))]
fn read_in<const TWO: bool>(input: &[u8], at: usize, first: bool) -> Reading
    ensures { result ≡ reading_of input.now at first TWO }
{
    whole(input, at, size::HEADER)?;
    match word::load_half(input, at) {
        mark::CF => bodies::settings(input, at, first, false),
        mark::C2 => bodies::settings(input, at, first, true),
        mark::MM => memory::memory(input, at),
        mark::SW => bodies::window(input, at),
        mark::WR => engines::write::<TWO>(input, at),
        mark::RD => engines::register::<TWO>(input, at),
        mark::ST => engines::steps::<TWO>(input, at),
        mark::AR => clock::clock(input, at),
        _ => None,
    }
}

// The record whose mark stands at `at`. `first` says that it is the trace's first, `two` that the trace has two engines.
pub fn read(input: &[u8], at: usize, first: bool, two: bool) -> Reading
    ensures { result ≡ reading_of input.now at first two }
{
    if two {
        read_in::<true>(input, at, first)
    } else {
        read_in::<false>(input, at, first)
    }
}
