// RULES.md, "Trace and listing": what a listing says before the first record is judged.
#![tactic(auto)]

ghost use Rattle.std.specs.Prelude.{◌≡◌, ◌+◌, ◌≤◌, length};
ghost use Rattle.session.specs.Effect.{settings_line_of};
ghost use Rattle.opening.specs.Opens.{Opens};

use digits::tables::DigitTables;
use listing::line::{Line, put_line};
use listing::word::Word;
use record::starts::settings_at;
use session::{Mode, Passed, Session};

// The settings that hold.
fn settings_line(session: Session) -> Line
    ensures { result ≡ settings_line_of session.sequence session.engine.settings.width session.engine.settings.beats }
{
    let engine = session.engine;
    let settings = engine.settings;
    Line {
        sequence: session.sequence,
        word: Word::Set,
        first: settings.width as u64,
        second: settings.beats as u64,
    }
}

// A trace that starts with CF says its settings itself; for any other they are put here. Records come next.
pub fn open(
    session: Session,
    input: &[u8],
    at: usize,
    tables: &DigitTables,
    out: &mut [u8],
    put: usize,
) -> Passed
    requires { put + 64 ≤ length out.old }
    ensures { Opens session input.now at out.old put result out.new }
{
    let opened = Session {
        mode: Mode::Records,
        ..session
    };
    if settings_at(input, at) {
        return Passed {
            session: opened,
            at,
            put,
        };
    }
    let line = settings_line(session);
    let put = put_line(tables, out, put, line);
    Passed {
        session: opened,
        at,
        put,
    }
}
