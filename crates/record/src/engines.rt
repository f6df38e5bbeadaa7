// RULES.md, "Trace and listing": the records that carry an engine number in a trace of two engines: WR, RD and ST.
ghost use Rattle.std.specs.Prelude.{◌≡◌, true, ◌+◌, ◌≤◌, length, get_or};
ghost use Rattle.kit.specs.Choice.{when};
ghost use Rattle.record.specs.Mark.{WR, RD, ST, of_trace};
ghost use Rattle.record.specs.Reading.{for_engine, reading_as};
ghost use Rattle.record.specs.Names.{names_of};

use crate::clock::byte;
use crate::found::{found, whole};
use crate::reading::{Body, Reading};
use crate::{mark, size};
use kit::word;

// The body; in a trace of two engines it is astray unless the number before it is 1 or 2.
fn for_engine<const TWO: bool>(input: &[u8], at: usize, body: Body) -> Body
    requires { at + 7 ≤ length input.now }
    ensures { result ≡ when TWO (for_engine (get_or input.now (at + 6) 0) body) body }
{
    if TWO && !matches!(byte(input, at + 6), 1 | 2) {
        Body::Astray
    } else {
        body
    }
}

// WR, with an engine number if there are two.
pub fn write<const TWO: bool>(input: &[u8], at: usize) -> Reading
    ensures { result ≡ reading_as input.now at true (of_trace TWO WR) }
{
    let number = TWO as usize;
    whole(input, at, size::WR + number)?;
    let offset = word::load_half(input, at + 6 + number) as u32;
    let value = word::load(input, at + 8 + number);
    let body = for_engine::<TWO>(input, at, Body::Write { offset, value });
    found(input, at, size::WR + number, body)
}

// RD, with an engine number if there are two.
pub fn register<const TWO: bool>(input: &[u8], at: usize) -> Reading
    ensures { result ≡ reading_as input.now at true (of_trace TWO RD) }
{
    let number = TWO as usize;
    whole(input, at, size::RD + number)?;
    let offset = word::load_half(input, at + 6 + number) as u32;
    let body = for_engine::<TWO>(input, at, Body::Read { offset });
    found(input, at, size::RD + number, body)
}

// ST, with an engine number if there are two.
pub fn steps<const TWO: bool>(input: &[u8], at: usize) -> Reading
    ensures { result ≡ reading_as input.now at true (of_trace TWO ST) }
{
    let number = TWO as usize;
    whole(input, at, size::ST + number)?;
    let count = word::load_half(input, at + 6 + number) as u32;
    let body = for_engine::<TWO>(input, at, Body::Steps { count });
    found(input, at, size::ST + number, body)
}

// Whether the record at `at`, of a trace of two engines, is for the engine of this number.
#[tactic(auto, unfolding(crate::specs::Mark::kind_of))]
pub fn names(input: &[u8], at: usize, number: u32) -> bool
    ensures { result ≡ names_of input.now at number }
{
    whole(input, at, 7).is_some()
        && byte(input, at + 6) == number
        && matches!(word::load_half(input, at), mark::WR | mark::RD | mark::ST)
}
