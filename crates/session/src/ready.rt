// Whether a pass can take a turn.
ghost use Rattle.std.specs.Prelude.{◌≡◌, ◌≤◌, length};
ghost use Rattle.session.specs.declared.Mode.TheVariants.{Records};
ghost use Rattle.session.specs.Pass.{ready_of, goes_on_with, goes_on_writing};

use crate::chosen::{Chosen, is_two};
use crate::{LINE_ROOM, LONGEST_RECORD, Mode};
use record::follows::follows;
use record::{mark, size};

// With `left` bytes of the part left a record is not cut off by its end; at the trace's end any byte is a record's.
pub fn record_ready(left: usize, ended: bool) -> bool
    ensures { result ≡ ready_of Records left ended }
{
    if ended {
        0 < left
    } else {
        LONGEST_RECORD <= left
    }
}

// Whether a turn can be taken: a line of an ST, or a record.
pub fn ready(mode: Mode, left: usize, ended: bool) -> bool
    ensures { result ≡ ready_of mode left ended }
{
    match mode {
        Mode::Steps { .. } => true,
        Mode::Over => false,
        Mode::Start | Mode::Records => record_ready(left, ended),
    }
}

// Whether the loop over records of one kind goes on: there is room for a line, and the next record is of that kind.
pub fn goes_on(
    input: &[u8],
    at: usize,
    ended: bool,
    put: usize,
    room: usize,
    mark: u16,
    size: usize,
    before: u32,
) -> bool
    requires { (at ≤ length input.now) × (6 ≤ size) × (put ≤ room) }
    ensures { result ≡ goes_on_with input.now at ended put room mark size before }
{
    if room - put < LINE_ROOM {
        return false;
    }
    if !record_ready(input.len() - at, ended) {
        return false;
    }
    follows(input, at, mark, size, before)
}

// The same of WR records, for one engine only: of two, the next record may be for the other.
pub fn goes_on_writing(
    chosen: Chosen,
    input: &[u8],
    at: usize,
    ended: bool,
    put: usize,
    room: usize,
    before: u32,
) -> bool
    requires { (at ≤ length input.now) × (put ≤ room) }
    ensures { result ≡ goes_on_writing chosen input.now at ended put room before }
{
    if is_two(chosen) {
        return false;
    }
    goes_on(input, at, ended, put, room, mark::WR, size::WR, before)
}
