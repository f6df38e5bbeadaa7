// Turns on a part of a trace, as many as can be taken: until a record may be cut off by the part's end, the buffer
// for the listing is full, or the replay is over.
ghost use Rattle.std.specs.Prelude.{◌≡◌, true, false, ◌+◌, ◌-◌, ◌≤◌, length};
ghost use Rattle.session.specs.Pass.{ready_of, calls_other, Passes, TakesBeside};

use digits::tables::DigitTables;
use lines::lines::lines;
use opening::open;
use records::records::records;
use session::hands::{calls_other, hand_over, set_aside};
use session::part::Part;
use session::ready::ready;
use session::{AfterPass, LINE_ROOM, Mode, Passed, Session};
use state::engine::Engine;

// What comes before the first record, the lines of the ST that is under way, or the next record and those of its kind.
fn turns(
    session: Session,
    part: Part<'_>,
    at: usize,
    memory: &mut [u8],
    windows: &mut [u32],
    tables: &DigitTables,
    out: &mut [u8],
    put: usize,
) -> Passed
    requires ended_value { (ready_of session.mode (length part.input.now - at) part.ended ≡ true) × (calls_other session.mode session.chosen part.input.now at ≡ false) }
    requires at_in_bounds { at ≤ length part.input.now }
    requires in_bounds { 32 ≤ length windows.old }
    requires put_in_bounds { put + 64 ≤ length out.old }
    ensures { TakesBeside part.entry.base part.entry.input.now part.entry.ended session at memory.old windows.old out.old put result memory.new windows.new out.new }
{
    let mode = session.mode;
    match mode {
        Mode::Start => open(session, part.input, at, tables, out, put),
        Mode::Steps { left, taken } => lines(
            session, left, taken, at, memory, windows, tables, out, put,
        ),
        _ => records(session, part, at, memory, windows, tables, out, put),
    }
}

// The same again and again, as long as no record is for the other engine. The two change places outside this loop, so that a
// trace of one engine does not pay for them.
fn stretch(
    session: Session,
    part: Part<'_>,
    at: usize,
    memory: &mut [u8],
    windows: &mut [u32],
    tables: &DigitTables,
    out: &mut [u8],
    put: usize,
) -> Passed
    requires ended_value { (ready_of session.mode (length part.input.now - at) part.ended ≡ true) × (calls_other session.mode session.chosen part.input.now at ≡ false) }
    requires at_in_bounds { at ≤ length part.input.now }
    requires in_bounds { 32 ≤ length windows.old }
    requires put_in_bounds { put + 64 ≤ length out.old }
    ensures { TakesBeside part.entry.base part.entry.input.now part.entry.ended session at memory.old windows.old out.old put result memory.new windows.new out.new }
{
    let last = out.len() - LINE_ROOM;
    let mut session = session;
    let mut at = at;
    let mut put = put;
    // No `for`: a turn moves on by the bytes that it read and put, and each is asked for first.
    loop {
        let passed = turns(session, part, at, memory, windows, tables, out, put);
        session = passed.session;
        at = passed.at;
        put = passed.put;
        if last < put {
            break;
        }
        let mode = session.mode;
        if !ready(mode, part.input.len() - at, part.ended) {
            break;
        }
        let chosen = session.chosen;
        if calls_other(mode, chosen, part.input, at) {
            break;
        }
    }
    Passed { session, at, put }
}

// `other` is the engine that is not the chosen one.
pub fn pass(
    session: Session,
    other: Engine,
    part: Part<'_>,
    memory: &mut [u8],
    windows: &mut [u32],
    tables: &DigitTables,
    out: &mut [u8],
) -> AfterPass
    requires { 32 ≤ length windows.old }
    ensures { Passes session other part.entry.base part.entry.input.now part.entry.ended memory.old windows.old out.old result memory.new windows.new out.new }
{
    if out.len() < LINE_ROOM {
        return AfterPass {
            session,
            other,
            at: 0,
            put: 0,
        };
    }
    let last = out.len() - LINE_ROOM;
    let mut session = session;
    let mut other = other;
    let mut at = 0;
    let mut put = 0;
    // No `for`: how far a stretch comes, it alone knows.
    while put <= last {
        let mode = session.mode;
        if !ready(mode, part.input.len() - at, part.ended) {
            break;
        }
        let chosen = session.chosen;
        let calls = calls_other(mode, chosen, part.input, at);
        let handed = hand_over(calls, session, other);
        other = set_aside(calls, session, other);
        let passed = stretch(handed, part, at, memory, windows, tables, out, put);
        session = passed.session;
        at = passed.at;
        put = passed.put;
    }
    AfterPass {
        session,
        other,
        at,
        put,
    }
}
