// AR records, one after the other, in a loop of their own that carries the monitor.
#![tactic(auto)]

ghost use Rattle.std.specs.Prelude.{◌≡◌, ◌+◌, ◌≤◌, length};
ghost use Rattle.monitor.specs.Monitor.{seen};
ghost use Rattle.session.specs.Effect.{clock_line_of};
ghost use Rattle.session.specs.Pass.{InOrder, TakesOnly};
ghost use Rattle.watch.specs.Judged.{clock_body, judged_of};

use digits::tables::DigitTables;
use kit::answer::Refusal;
use kit::settings::Settings;
use kit::word::load;
use listing::line::{Line, put_line, put_quick_line};
use listing::word::Word;
use monitor::clock::Clock;
use monitor::monitor::{Clocked, Monitor, bus_clock};
use record::clock::{byte, fields};
use record::{mark, size};
use session::bad::bad_line;
use session::part::Part;
use session::ready::goes_on;
use session::{Mode, Passed, Session};

// Bits other than reset-high, valid and ready are out of range, as a field can be.
fn judged(monitor: Monitor, settings: Settings, bits: u32, clock: Clock) -> Result<Clocked, Refusal>
    ensures { seen monitor result ≡ judged_of monitor settings bits clock }
{
    if 7 < bits {
        return Err(Refusal::Clock);
    }
    bus_clock(monitor, settings.width, settings.beats, clock)
}

fn clock_line(sequence: u32, count: u32, lowest: u32) -> Line
    ensures { result ≡ clock_line_of sequence count lowest }
{
    Line {
        sequence,
        word: Word::Bus,
        first: count as u64,
        second: lowest as u64,
    }
}

// From the AR record at `at` on, which was read and is in order, the lines of all that follow without another record between
// them, up to a refusal; everything but an AR in order is left to the caller.
pub fn clocks(
    session: Session,
    sequence: u32,
    bits: u32,
    clock: Clock,
    part: Part<'_>,
    at: usize,
    next: usize,
    tables: &DigitTables,
    out: &mut [u8],
    put: usize,
) -> Passed
    requires in_order { InOrder part.base part.input.now part.ended session at sequence (clock_body bits clock) next }
    requires put_in_bounds { put + 64 ≤ length out.old }
    ensures { TakesOnly part.entry.base part.entry.input.now part.entry.ended session at out.old put result out.new }
{
    let settings = session.engine.settings;
    let mut monitor = session.monitor;
    let mut before = session.sequence;
    let mut sequence = sequence;
    let mut bits = bits;
    let mut clock = clock;
    let mut at = at;
    let mut next = next;
    let mut put = put;
    // No `for`: a turn moves on by what it read and put, and may be the last. No loop shared with `writes`: each carries a state
    // of its own, and reads the fields of its own record.
    loop {
        let clocked = match judged(monitor, settings, bits, clock) {
            Ok(clocked) => clocked,
            Err(refusal) => {
                let line = bad_line(before, Err(refusal), part.base + at as u64);
                let put = put_line(tables, out, put, line);
                let session = Session {
                    monitor,
                    sequence: before,
                    mode: Mode::Over,
                    ..session
                };
                return Passed {
                    session,
                    at: next,
                    put,
                };
            }
        };
        monitor = clocked.monitor;
        let line = clock_line(sequence, clocked.count, monitor.lowest());
        put = put_quick_line::<1>(tables, out, put, line);
        before = sequence;
        at = next;
        if !goes_on(
            part.input,
            at,
            part.ended,
            put,
            out.len(),
            mark::AR,
            size::AR,
            before,
        ) {
            break;
        }
        sequence = load(part.input, at + 2);
        bits = byte(part.input, at + 6);
        clock = fields(part.input, at, bits);
        next = at + size::AR;
    }
    let session = Session {
        monitor,
        sequence: before,
        ..session
    };
    Passed { session, at, put }
}
