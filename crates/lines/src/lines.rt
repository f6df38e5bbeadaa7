// The lines of an ST, in a loop of their own that carries the engine: refusals are judged once.
ghost use Rattle.std.specs.Prelude.{◌≡◌, ◌+◌, ◌≤◌, length};
ghost use Rattle.session.specs.declared.Mode.TheVariants.{Steps};
ghost use Rattle.session.specs.Pass.{TakesSteps};

use crate::stepping::{event_line, stop_line, stops, used};
use digits::tables::DigitTables;
use listing::line::{put_line, put_quick_line};
use runs::run::refusal;
use session::{LINE_ROOM, Mode, Passed, Session};
use state::engine::Engine;
use steps::advance::advance;

// Puts lines from `put` on while there is room, up to the one that stops the ST; `at` is the next record's place.
pub fn lines(
    session: Session,
    left: u32,
    taken: u32,
    at: usize,
    memory: &mut [u8],
    windows: &[u32],
    tables: &DigitTables,
    out: &mut [u8],
    put: usize,
) -> Passed
    requires mode_value { session.mode ≡ Steps left taken }
    requires in_bounds { 32 ≤ length windows.now }
    requires put_in_bounds { put + 64 ≤ length out.old }
    ensures { TakesSteps session at memory.old windows.now out.old put result memory.new out.new }
{
    let last = out.len() - LINE_ROOM;
    let end = used(session.windows);
    let mut engine = session.engine;
    // No step changes them: taken from here, they are not carried from step to step.
    let settings = engine.settings;
    let simple = engine.simple;
    let accepted = refusal(engine, memory.len(), end / 2).is_ok();
    let mut left = left;
    let mut taken = taken;
    let mut put = put;
    // The steps are counted for the line that stops them, and each turn asks first whether there is room: no `for` does both.
    while put <= last {
        let phase = engine.phase;
        if stops(phase, left, taken, accepted) {
            let line = stop_line(session.sequence, taken, phase);
            let put = put_quick_line::<2>(tables, out, put, line);
            let session = Session {
                engine,
                mode: Mode::Records,
                ..session
            };
            return Passed { session, at, put };
        }
        let advanced = advance(engine, memory, &windows[..end]);
        let event = advanced.event;
        let line = event_line(session.sequence, event);
        put = put_line(tables, out, put, line);
        let after = advanced.engine;
        engine = Engine {
            settings,
            simple,
            ..after
        };
        left -= 1;
        taken += 1;
    }
    let mode = Mode::Steps { left, taken };
    let session = Session {
        engine,
        mode,
        ..session
    };
    Passed { session, at, put }
}
