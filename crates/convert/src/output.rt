// The converted trace's way out.
ghost use Rattle.std.specs.Prelude.{◌≡◌};
ghost use Rattle.convert.specs.Copying.{pending_of, first_of, Fits};
ghost use Rattle.convert.specs.Turn.{Begins, Handed, Forwards};

use crate::copying::{Copying, FRONT, ROOM, after_write};
use record::starts::settings_at;
use std::io::{Stdout, Write};

// Puts CF 0 (4,16) at the buffer's front, before anything is read.
pub fn begin(buffer: &mut [u8; ROOM]) -> Copying
    ensures { Begins result buffer.new }
{
    let older = b"CF\0\0\0\0\x04\0\x10\0";
    buffer[..FRONT].copy_from_slice(older);
    Copying {
        waiting: 0,
        decided: false,
        ended: false,
        taken: true,
        failed: false,
    }
}

// Hands over what is pending; the first time with what comes before the trace.
pub fn forward(state: Copying, buffer: &[u8], stdout: Stdout) -> Copying
    requires { Fits state buffer.now }
    ensures { Forwards state buffer.now result }
{
    let from = first(state, buffer);
    let end = FRONT + state.waiting;
    let taken = hand_over(&buffer[from..end], stdout);
    after_write(state, taken)
}

// Where in the buffer the bytes to hand over begin: with the front if the trace's first bytes are pending and are not CF.
fn first(state: Copying, buffer: &[u8]) -> usize
    requires { Fits state buffer.now }
    ensures { result ≡ first_of state (pending_of state buffer.now) }
{
    if state.decided {
        return FRONT;
    }
    let start = FRONT;
    let end = FRONT + state.waiting;
    if settings_at(&buffer[start..end], 0) {
        return FRONT;
    }
    0
}

// The one place that writes to standard output: all of `part`; false if nobody takes it.
fn hand_over(part: &[u8], mut stdout: Stdout) -> bool
    ensures { Handed part.now result }
{
    stdout.write_all(part).is_ok()
}
