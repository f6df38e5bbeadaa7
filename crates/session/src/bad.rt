// The line of a refusal.
ghost use Rattle.std.specs.Prelude.{◌≡◌};
ghost use Rattle.kit.specs.Answer.{answer_number};
ghost use Rattle.session.specs.Effect.{bad_line_of};

use kit::answer::{Answer, number};
use listing::line::Line;
use listing::word::Word;

// The last good sequence number, the answer and the mark's position.
pub fn bad_line(sequence: u32, answer: Answer, position: u64) -> Line
    ensures { result ≡ bad_line_of sequence (answer_number answer) position }
{
    Line {
        sequence,
        word: Word::Bad,
        first: number(answer) as u64,
        second: position,
    }
}
