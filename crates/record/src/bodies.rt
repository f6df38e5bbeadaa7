// RULES.md, "Trace and listing": CF, C2 and SW, whose length is fixed.
ghost use Rattle.std.specs.Prelude.{◌≡◌, true};
ghost use Rattle.record.specs.Mark.{SW};
ghost use Rattle.record.specs.Reading.{settings_kind, reading_as};

use crate::found::{found, whole};
use crate::reading::{Body, Reading};
use crate::size;
use kit::word;

// CF, or C2 for two engines: they may only come first.
pub fn settings(input: &[u8], at: usize, first: bool, two: bool) -> Reading
    ensures { result ≡ reading_as input.now at first (settings_kind two) }
{
    if !first {
        return None;
    }
    whole(input, at, size::CF)?;
    let width = word::load_half(input, at + 6) as u32;
    let beats = word::load_half(input, at + 8) as u32;
    found(input, at, size::CF, Body::Settings { two, width, beats })
}

pub fn window(input: &[u8], at: usize) -> Reading
    ensures { result ≡ reading_as input.now at true SW }
{
    whole(input, at, size::SW)?;
    let start = word::load(input, at + 6);
    let length = word::load(input, at + 10);
    found(input, at, size::SW, Body::Window { start, length })
}
