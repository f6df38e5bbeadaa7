// The trace's way in: one read at a time, after the bytes that are pending.
ghost use Rattle.std.specs.Prelude.{◌+◌, ◌<◌};
ghost use Rattle.convert.specs.Copying.{room, front, Fits};
ghost use Rattle.convert.specs.Turn.{Refills};

use crate::copying::{Copying, FRONT, after_read};
use std::io::{Read, Stdin};

// Reads once, as flow's `refill` does; each of the two programs has its own state, and only the read is the same. There is
// room for a byte, so a read that answers none has met the trace's end.
pub fn refill(state: Copying, buffer: &mut [u8], mut stdin: Stdin) -> Copying
    requires { Fits state buffer.old × (front + state.waiting < room) }
    ensures { Refills state buffer.old result buffer.new }
{
    let end = FRONT + state.waiting;
    let got = stdin.read(&mut buffer[end..]);
    after_read(state, got.map_err(|error| error.kind()))
}
