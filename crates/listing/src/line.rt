// RULES.md, "Trace and listing": one line of the listing, and the header line.
ghost use Rattle.std.specs.Prelude.{◌+◌, ◌≤◌, length};
ghost use Rattle.digits.specs.Puts.{Puts};
ghost use Rattle.listing.specs.Line.{line_of, header_of};

use crate::word::{Word, put_word};
use digits::decimal::{put_number, put_quick};
use digits::tables::DigitTables;

#[derive(Clone, Copy)]
pub struct Line {
    pub sequence: u32,
    pub word: Word,
    pub first: u64,
    pub second: u64,
}

// Puts the line from `at` on, with its line feed; the result is the place past it. The zeros that `put_word` leaves after
// a short word are overwritten: at least four bytes of the line follow it.
#[tactic(auto, using(crate::proofs::Lines::closed_short, crate::proofs::Lines::closed_long, crate::proofs::Words::spaced_most))]
pub fn put_line(tables: &DigitTables, out: &mut [u8], at: usize, line: Line) -> usize
    requires { at + 64 ≤ length out.old }
    ensures { Puts out.old out.new at result (line_of line) }
{
    let word = line.word;
    let after_sequence = put_number(tables, out, at, line.sequence as u64, b' ');
    let after_word = put_word(out, after_sequence, word);
    let after_first = put_number(tables, out, after_word, line.first, b' ');
    put_number(tables, out, after_first, line.second, b'\n')
}

// The same by `put_quick`, for the loops that put many lines; one function that is handed either is no plainer. Each such
// loop has a number of its own: a function with one caller is compiled into it, and knows what the loop knows of the
// numbers.
#[tactic(auto, using(crate::proofs::Lines::closed_short, crate::proofs::Lines::closed_long, crate::proofs::Words::spaced_most))]
pub fn put_quick_line<const LOOP: u8>(
    tables: &DigitTables,
    out: &mut [u8],
    at: usize,
    line: Line,
) -> usize
    requires { at + 64 ≤ length out.old }
    ensures { Puts out.old out.new at result (line_of line) }
{
    let word = line.word;
    let after_sequence = put_quick(tables, out, at, line.sequence as u64, b' ');
    let after_word = put_word(out, after_sequence, word);
    let after_first = put_quick(tables, out, after_word, line.first, b' ');
    put_quick(tables, out, after_first, line.second, b'\n')
}

// Puts the header line from `at` on; the result is the place past it.
pub fn put_header(out: &mut [u8], at: usize) -> usize
    requires { at + 64 ≤ length out.old }
    ensures { Puts out.old out.new at result header_of }
{
    let text = b"seq event first second\n";
    let end = at + 23;
    out[at..end].copy_from_slice(text);
    end
}
