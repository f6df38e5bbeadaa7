// RULES.md, "Trace and listing": whether a record is whole, and what a whole record gives.
ghost use Rattle.std.specs.Prelude.{◌≡◌, ◌+◌, ◌<◌, ◌≤◌, length, MatchOption};
ghost use Rattle.record.specs.Reading.{found_of};

use crate::reading::{Body, Reading, Record};
use kit::word;

// Nothing where the input ends before the record of `size` bytes at `at` does.
pub fn whole(input: &[u8], at: usize, size: usize) -> Option<()>
    ensures { MatchOption result (length input.now < at + size) (λ u. at + size ≤ length input.now) }
{
    if at <= input.len() && size <= input.len() - at {
        Some(())
    } else {
        None
    }
}

// The record of `count` bytes at `at`, with the sequence number that stands after its mark.
pub fn found(input: &[u8], at: usize, count: usize, body: Body) -> Reading
    requires { (6 ≤ count) × (at + count ≤ length input.now) }
    ensures { result ≡ found_of input.now at count body }
{
    let sequence = word::load(input, at + 2);
    Some((Record { sequence, body }, at + count))
}
