// What a replay holds between two lines, beside the memory and the windows that the program lends; specs/ says what each
// record of a trace does to it and prints.
#![tactic(auto)]

pub mod bad;
pub mod chosen;
pub mod hands;
pub mod part;
pub mod ready;

ghost use Rattle.std.specs.Prelude.{◌≡◌};
ghost use Rattle.session.specs.Effect.{start_of, under_way};

use crate::chosen::Chosen;
use kit::settings::Settings;
use listing::line::Line;
use monitor::monitor::Monitor;
use state::engine::{Engine, fresh};

// Nothing read yet, reading records, in the midst of an ST, or over after a bad line.
#[derive(Clone, Copy)]
pub enum Mode {
    Start,
    Records,
    Steps { left: u32, taken: u32 },
    Over,
}

// `engine` is the only one or, of two, the chosen one: the one that the last WR, RD or ST was for. `sequence` is the last good
// record's, and `windows` the number of sick windows so far.
#[derive(Clone, Copy)]
pub struct Session {
    pub engine: Engine,
    pub monitor: Monitor,
    pub sequence: u32,
    pub windows: u32,
    pub chosen: Chosen,
    pub mode: Mode,
}

// The session after a line, and the line. An ST has a line too, which is not printed (`steps_of` of specs/).
#[derive(Clone, Copy)]
pub struct Effect {
    pub session: Session,
    pub line: Line,
}

// The session after some turns, the place of the next record, and the place past the bytes that were put. The buffer for them
// is lent, with the place beside it: there is no heap, and the room for a line is there before it is put and not after.
#[derive(Clone, Copy)]
pub struct Passed {
    pub session: Session,
    pub at: usize,
    pub put: usize,
}

// What a pass leaves: the same, and the engine that is not the chosen one.
#[derive(Clone, Copy)]
pub struct AfterPass {
    pub session: Session,
    pub other: Engine,
    pub at: usize,
    pub put: usize,
}

// No record is longer; no line is longer than this room.
pub const LONGEST_RECORD: usize = 1036;

pub const LINE_ROOM: usize = 64;

// Whether an ST is under way.
pub fn under_way(mode: Mode) -> bool
    ensures { result ≡ under_way mode }
{
    matches!(mode, Mode::Steps { .. })
}

// No windows, a fresh engine and monitor; without a CF record the width is 4 and the beats are 64.
pub fn start() -> Session
    ensures { result ≡ start_of }
{
    let engine = fresh(Settings {
        width: 4,
        beats: 64,
    });
    let monitor = Monitor::fresh();
    Session {
        engine,
        monitor,
        sequence: 0,
        windows: 0,
        chosen: Chosen::Only,
        mode: Mode::Start,
    }
}
