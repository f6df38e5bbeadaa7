// RULES.md, "Trace and listing": of two engines, the one that the next record is for is chosen.
ghost use Rattle.std.specs.Prelude.{◌≡◌};
ghost use Rattle.kit.specs.Choice.{when};
ghost use Rattle.session.specs.Pass.{calls_other, swapped_with};

use crate::chosen::{Chosen, called, turned};
use crate::{Mode, Session};
use state::engine::Engine;

// Whether a record comes next, and is for the engine that is not the chosen one.
pub fn calls_other(mode: Mode, chosen: Chosen, input: &[u8], at: usize) -> bool
    ensures { result ≡ calls_other mode chosen input.now at }
{
    matches!(mode, Mode::Records) && called(chosen, input, at)
}

// The session with the other engine in the place of its own, if that is called for. Both have the same settings.
pub fn hand_over(calls: bool, session: Session, other: Engine) -> Session
    ensures { result ≡ when calls (swapped_with session other) session }
{
    if !calls {
        return session;
    }
    let held = session.engine;
    let settings = held.settings;
    let chosen = session.chosen;
    let chosen = turned(chosen);
    let engine = Engine { settings, ..other };
    Session {
        engine,
        chosen,
        ..session
    }
}

// The engine that is then set aside. Apart from `hand_over`: a pair of both would be copied, to be taken apart at once.
pub fn set_aside(calls: bool, session: Session, other: Engine) -> Engine
    ensures { result ≡ when calls session.engine other }
{
    if calls { session.engine } else { other }
}
