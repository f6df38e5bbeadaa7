// WR records, one after the other, in a loop of their own that carries the engine.
#![tactic(auto)]

ghost use Rattle.std.specs.Prelude.{◌≡◌, ◌+◌, ◌≤◌, length};
ghost use Rattle.kit.specs.Answer.{answer_number};
ghost use Rattle.record.specs.declared.reading.Body.TheVariants.{Write};
ghost use Rattle.session.specs.Effect.{write_line_of};
ghost use Rattle.session.specs.Pass.{InOrder, TakesOnly};

use digits::tables::DigitTables;
use kit::answer::{Answer, number};
use kit::word::{load, load_half};
use listing::line::{Line, put_quick_line};
use listing::word::Word;
use record::size;
use registers::write::write_to;
use session::part::Part;
use session::ready::goes_on_writing;
use session::{Passed, Session};

// A write that is refused prints its answer and goes on.
fn write_line(sequence: u32, offset: u32, answer: Answer) -> Line
    ensures { result ≡ write_line_of sequence offset (answer_number answer) }
{
    Line {
        sequence,
        word: Word::Write,
        first: offset as u64,
        second: number(answer) as u64,
    }
}

// From the WR record at `at` on, which was read and is in order, the lines of all that follow without another record between
// them, if there is one engine; everything but a WR in order is left to the caller.
pub fn writes(
    session: Session,
    sequence: u32,
    offset: u32,
    value: u32,
    part: Part<'_>,
    at: usize,
    next: usize,
    tables: &DigitTables,
    out: &mut [u8],
    put: usize,
) -> Passed
    requires in_order { InOrder part.base part.input.now part.ended session at sequence (Write offset value) next }
    requires put_in_bounds { put + 64 ≤ length out.old }
    ensures { TakesOnly part.entry.base part.entry.input.now part.entry.ended session at out.old put result out.new }
{
    let chosen = session.chosen;
    let mut engine = session.engine;
    let mut before = session.sequence;
    let mut sequence = sequence;
    let mut offset = offset;
    let mut value = value;
    let mut at = at;
    let mut next = next;
    let mut put = put;
    // No `for`: a turn moves on by what it read and put, and may be the last. No loop shared with `clocks`: each carries a state
    // of its own, and reads the fields of its own record.
    loop {
        let answer = write_to(&mut engine, offset, value);
        let line = write_line(sequence, offset, answer);
        put = put_quick_line::<0>(tables, out, put, line);
        before = sequence;
        at = next;
        if !goes_on_writing(chosen, part.input, at, part.ended, put, out.len(), before) {
            break;
        }
        sequence = load(part.input, at + 2);
        offset = load_half(part.input, at + 6) as u32;
        value = load(part.input, at + 8);
        next = at + size::WR;
    }
    let session = Session {
        engine,
        sequence: before,
        ..session
    };
    Passed { session, at, put }
}
