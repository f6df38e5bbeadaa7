// RULES.md, "Trace and listing": the AR record, one bus clock. Its ranges are answer 13, judged by the monitor.
ghost use Rattle.std.specs.Prelude.{◌≡◌, true, ◌+◌, ◌≤◌, ◌<◌, length, get_or};
ghost use Rattle.record.specs.Mark.{AR};
ghost use Rattle.record.specs.Reading.{clock_at, reading_as};

use crate::found::{found, whole};
use crate::reading::{Body, Reading};
use crate::size;
use kit::word;
use monitor::clock::Clock;

pub fn byte(input: &[u8], at: usize) -> u32
    requires { at < length input.now }
    ensures { result ≡ get_or input.now at 0 }
{
    input[at] as u32
}

// The clock of the record at `at`, its bits read already.
pub fn fields(input: &[u8], at: usize, bits: u32) -> Clock
    requires { at + 22 ≤ length input.now }
    ensures { result ≡ clock_at input.now at bits }
{
    Clock {
        aresetn: bits % 2 == 1,
        valid: bits / 2 % 2 == 1,
        ready: bits / 4 % 2 == 1,
        address: word::load(input, at + 18),
        length: byte(input, at + 7),
        size: byte(input, at + 8),
        burst: byte(input, at + 9),
        cache: byte(input, at + 10),
        prot: byte(input, at + 11),
        qos: byte(input, at + 12),
        region: byte(input, at + 13),
        id: word::load(input, at + 14),
    }
}

pub fn clock(input: &[u8], at: usize) -> Reading
    ensures { result ≡ reading_as input.now at true AR }
{
    whole(input, at, size::AR)?;
    let bits = byte(input, at + 6);
    let clock = fields(input, at, bits);
    found(input, at, size::AR, Body::Clock { bits, clock })
}
