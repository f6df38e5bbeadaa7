// What the converter keeps from one turn to the next, and what a read and a write make of it. Nothing here calls the system.
ghost use Rattle.std.specs.Prelude.{◌≡◌, ◌+◌, ◌-◌, ◌≤◌};
ghost use Rattle.kit.specs.Reading.{Moved, moved_of, interrupted_of};
ghost use Rattle.convert.specs.Copying.{room, front, ready_of, over_of, after_read, after_write};

use std::io::ErrorKind;

// The bytes of the buffer.
pub const ROOM: usize = 65536;

// The bytes of CF 0 (4,16). They stand at the buffer's front all the time, and the trace's bytes after them, so that one
// write hands over both.
pub const FRONT: usize = 10;

// The first `waiting` bytes after the front are pending: read, but not handed over yet. `decided` says that what comes before
// the trace was handed over with its first bytes; `ended` that the trace ends with the bytes read; `taken` that every write
// was taken; `failed` that a read failed.
#[derive(Clone, Copy)]
pub struct Copying {
    pub waiting: usize,
    pub decided: bool,
    pub ended: bool,
    pub taken: bool,
    pub failed: bool,
}

// Whether no turn is to come.
pub fn is_over(state: Copying) -> bool
    ensures { result ≡ over_of state }
{
    state.ended || state.failed || !state.taken
}

// Whether the pending bytes can go. The trace's first two letters decide what comes before it: with fewer pending it has to
// have ended.
pub fn ready(state: Copying) -> bool
    ensures { result ≡ ready_of state }
{
    state.decided || state.ended || 2 <= state.waiting
}

// After a read that answered `got`. No bytes are the trace's end. A read that was interrupted is tried again in the next turn.
pub fn after_read(state: Copying, got: Result<usize, ErrorKind>) -> Copying
    requires { (front + state.waiting ≤ room) × Moved (room - (front + state.waiting)) (moved_of got) }
    ensures { result ≡ after_read state (moved_of got) (interrupted_of got) }
{
    match got {
        Ok(read) => Copying {
            waiting: state.waiting + read,
            ended: read == 0,
            ..state
        },
        Err(kind) => Copying {
            failed: kind != ErrorKind::Interrupted,
            ..state
        },
    }
}

// After all that was pending was handed over; `taken` says whether it was taken.
pub fn after_write(state: Copying, taken: bool) -> Copying
    ensures { result ≡ after_write state taken }
{
    Copying {
        waiting: 0,
        decided: true,
        taken,
        ..state
    }
}
