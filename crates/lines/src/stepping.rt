// A line of an ST: a step's event, or `stop`.
ghost use Rattle.std.specs.Prelude.{◌≡◌, ◌≤◌};
ghost use Rattle.session.specs.Stepping.{used_of, event_line_of, stop_line_of, stops_of};

use kit::limits::MOST_WINDOWS;
use listing::line::Line;
use listing::word::Word;
use state::engine::{Phase, busy};
use steps::event::Event;

// An ST has no more steps than a 16-bit number says.
const MOST_STEPS: u32 = 65535;

// How many numbers of the windows' slice are windows.
pub fn used(windows: u32) -> usize
    ensures { (result ≡ used_of windows) × (result ≤ 32) }
{
    2 * (windows as usize).min(MOST_WINDOWS)
}

fn line(sequence: u32, word: Word, first: u32, second: u32) -> Line
    ensures { result ≡ record { sequence = sequence; word = word; first = first; second = second } }
{
    Line {
        sequence,
        word,
        first: first as u64,
        second: second as u64,
    }
}

// The line of an event; a step without one has none.
pub fn event_line(sequence: u32, event: Event) -> Line
    ensures { result ≡ event_line_of sequence event }
{
    let (word, first, second) = match event {
        Event::None => (Word::Stop, 0, 0),
        Event::Fetch(current) => (Word::Fetch, current, 0),
        Event::Move(burst) => (Word::Move, burst.start, burst.bytes),
        Event::Fault { place, bit } => (Word::Fault, place, bit),
        Event::Update { current, word } => (Word::Update, current, word),
        Event::Halt { current, bit } => (Word::Halt, current, bit),
    };
    line(sequence, word, first, second)
}

// stop steps Idle
pub fn stop_line(sequence: u32, taken: u32, phase: Phase) -> Line
    ensures { result ≡ stop_line_of sequence taken phase }
{
    let idle = !busy(phase);
    Line {
        sequence,
        word: Word::Stop,
        first: taken as u64,
        second: idle as u64,
    }
}

// Whether an ST stops: its steps are taken, the engine is idle, or a step would be refused.
pub fn stops(phase: Phase, left: u32, taken: u32, accepted: bool) -> bool
    ensures { result ≡ stops_of phase left taken accepted }
{
    left == 0 || MOST_STEPS <= taken || !accepted || !busy(phase)
}
