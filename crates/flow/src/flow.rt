// What a replay keeps from one turn to the next, and what a read and a pass make of it. Nothing here calls the system.
ghost use Rattle.std.specs.Prelude.{◌≡◌, ◌+◌, ◌-◌, ◌≤◌, ◌<◌, ◌^◌};
ghost use Rattle.kit.specs.Reading.{Moved, moved_of, interrupted_of};
ghost use Rattle.flow.specs.Flow.{opened_of, wants_of, left_of, room, after_read, over_of, after_pass};

use session::{AfterPass, LONGEST_RECORD, Mode, Session, start};
use state::engine::Engine;
use std::io::ErrorKind;

// The bytes of each of the two buffers, for the trace and for the listing.
pub const ROOM: usize = 65536;

// The session, with the engine that is not the chosen one beside it; the place in the whole trace of the byte at `at`; and
// the part of the buffer, from `at` up to `filled`, whose bytes are pending: read, but not used yet. `ended` says that the
// trace ends with them, `over` that no turn is to come.
#[derive(Clone, Copy)]
pub struct Flow {
    pub session: Session,
    pub other: Engine,
    pub position: u64,
    pub at: usize,
    pub filled: usize,
    pub ended: bool,
    pub over: bool,
}

// Before anything is read; `sent` says that the header was taken.
pub fn opened(sent: bool) -> Flow
    ensures { result ≡ opened_of sent }
{
    let session = start();
    let other = session.engine;
    Flow {
        session,
        other,
        position: 0,
        at: 0,
        filled: 0,
        ended: false,
        over: !sent,
    }
}

// Whether to read: the trace goes on, and a record may be cut off by the end of the pending bytes. With as many bytes as the
// longest record has, none is.
pub fn wants(flow: Flow) -> bool
    requires { flow.at ≤ flow.filled }
    ensures { result ≡ wants_of flow }
{
    !flow.ended && flow.filled - flow.at < LONGEST_RECORD
}

// After a read that answered `got`, with the pending bytes moved to the buffer's front. No bytes are the trace's end. A read
// that was interrupted is tried again in the next turn; one that failed ends the replay, but is not the trace's end.
pub fn after_read(flow: Flow, got: Result<usize, ErrorKind>) -> Flow
    requires { (flow.at ≤ flow.filled) × (left_of flow ≤ room) × Moved (room - left_of flow) (moved_of got) }
    ensures { result ≡ after_read flow (moved_of got) (interrupted_of got) }
{
    let left = flow.filled - flow.at;
    match got {
        Ok(read) => Flow {
            at: 0,
            filled: left + read,
            ended: read == 0,
            ..flow
        },
        Err(kind) => Flow {
            at: 0,
            filled: left,
            over: kind != ErrorKind::Interrupted,
            ..flow
        },
    }
}

// Whether there is nothing more to print, or nobody takes it.
fn is_over(sent: bool, mode: Mode, left: usize, ended: bool) -> bool
    ensures { result ≡ over_of sent mode left ended }
{
    !sent
        || match mode {
            Mode::Over => true,
            Mode::Steps { .. } => false,
            Mode::Start | Mode::Records => ended && left == 0,
        }
}

// After a pass over the pending bytes; `sent` says that its text was taken.
pub fn after_pass(flow: Flow, passed: AfterPass, sent: bool) -> Flow
    requires { (flow.at + passed.at ≤ flow.filled) × (flow.position + passed.at < 2 ^ 64) }
    ensures { result ≡ after_pass flow passed sent }
{
    let session = passed.session;
    let mode = session.mode;
    let used = passed.at;
    let at = flow.at + used;
    let over = is_over(sent, mode, flow.filled - at, flow.ended);
    let other = passed.other;
    Flow {
        session,
        other,
        position: flow.position + used as u64,
        at,
        filled: flow.filled,
        ended: flow.ended,
        over,
    }
}
