// What each record but WR and AR does and prints; those have loops of their own. A record that is refused has no effect: its
// line is the last.
ghost use Rattle.std.specs.Prelude.{◌≡◌, ◌+◌, ◌≤◌, length};
ghost use Rattle.kit.specs.Answer.{answer_number};
ghost use Rattle.session.specs.Effect.{OnMemory, OnWindows, bad_of, settings_of, memory_of, window_of, read_of, steps_of};

use kit::answer::{Answer, Refusal};
use kit::limits::MOST_WINDOWS;
use kit::settings::{Settings, legal};
use listing::line::Line;
use listing::word::Word;
use reads::read::read;
use session::bad::bad_line;
use session::chosen::chosen_at_start;
use session::{Effect, Mode, Session};
use state::engine::fresh;

// The last good sequence number, the answer and the mark's position; the replay is over.
pub fn bad(session: Session, answer: Answer, position: u64) -> Effect
    ensures { result ≡ bad_of session (answer_number answer) position }
{
    let line = bad_line(session.sequence, answer, position);
    let session = Session {
        mode: Mode::Over,
        ..session
    };
    Effect { session, line }
}

pub fn settings(
    session: Session,
    sequence: u32,
    two: bool,
    width: u32,
    beats: u32,
    position: u64,
) -> Effect
    ensures { result ≡ settings_of session sequence two width beats position }
{
    if !legal(Settings { width, beats }) {
        return bad(session, Err(Refusal::Settings), position);
    }
    let engine = fresh(Settings { width, beats });
    let chosen = chosen_at_start(two);
    let line = Line {
        sequence,
        word: Word::Set,
        first: width as u64,
        second: beats as u64,
    };
    let session = Session {
        engine,
        sequence,
        chosen,
        ..session
    };
    Effect { session, line }
}

// The record's bytes stand in `input` from the place `from` on.
pub fn memory(
    session: Session,
    sequence: u32,
    address: u32,
    count: u32,
    position: u64,
    input: &[u8],
    from: usize,
    memory: &mut [u8],
) -> Effect
    requires { from + count ≤ length input.now }
    ensures { OnMemory (memory_of session sequence address count position input.now from) memory.old result memory.new }
{
    let start = address as usize;
    let end = start + count as usize;
    if memory.len() < end {
        return bad(session, Err(Refusal::MemoryEnd), position);
    }
    let from_end = from + count as usize;
    memory[start..end].copy_from_slice(&input[from..from_end]);
    let line = Line {
        sequence,
        word: Word::Memory,
        first: address as u64,
        second: count as u64,
    };
    let session = Session {
        sequence,
        ..session
    };
    Effect { session, line }
}

pub fn window(
    session: Session,
    sequence: u32,
    start: u32,
    count: u32,
    position: u64,
    windows: &mut [u32],
) -> Effect
    requires { 32 ≤ length windows.old }
    ensures { OnWindows (window_of session sequence start count position) windows.old result windows.new }
{
    let used = session.windows as usize;
    if MOST_WINDOWS <= used {
        return bad(session, Err(Refusal::WindowCount), position);
    }
    windows[2 * used] = start;
    windows[2 * used + 1] = count;
    let line = Line {
        sequence,
        word: Word::Window,
        first: start as u64,
        second: count as u64,
    };
    let more = session.windows + 1;
    let session = Session {
        sequence,
        windows: more,
        ..session
    };
    Effect { session, line }
}

// A read that is refused prints `noread` with its answer and goes on.
pub fn register_read(session: Session, sequence: u32, offset: u32) -> Effect
    ensures { result ≡ read_of session sequence offset }
{
    let (word, second) = match read(session.engine, offset) {
        Ok(value) => (Word::Read, value),
        Err(refusal) => (Word::NoRead, refusal.number()),
    };
    let line = Line {
        sequence,
        word,
        first: offset as u64,
        second: second as u64,
    };
    let session = Session {
        sequence,
        ..session
    };
    Effect { session, line }
}

// The steps are still to be taken, and their lines to be put: the line here is not printed.
pub fn steps(session: Session, sequence: u32, count: u32) -> Effect
    ensures { result ≡ steps_of session sequence count }
{
    let line = Line {
        sequence,
        word: Word::Stop,
        first: 0,
        second: 0,
    };
    let mode = Mode::Steps {
        left: count,
        taken: 0,
    };
    let session = Session {
        sequence,
        mode,
        ..session
    };
    Effect { session, line }
}
