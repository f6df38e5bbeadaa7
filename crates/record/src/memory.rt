// RULES.md, "Trace and listing": the MM record, whose length has to be 1..1024.
ghost use Rattle.std.specs.Prelude.{◌≡◌, true};
ghost use Rattle.record.specs.Mark.{MM};
ghost use Rattle.record.specs.Reading.{reading_as};

use crate::found::{found, whole};
use crate::reading::{Body, Reading};
use crate::size;
use kit::word;

const MOST_DATA: u32 = 1024;

pub fn memory(input: &[u8], at: usize) -> Reading
    ensures { result ≡ reading_as input.now at true MM }
{
    whole(input, at, size::MM)?;
    let length = word::load_half(input, at + 10) as u32;
    if length < 1 || MOST_DATA < length {
        return None;
    }
    let count = size::MM + length as usize;
    whole(input, at, count)?;
    let address = word::load(input, at + 6);
    found(input, at, count, Body::Memory { address, length })
}
