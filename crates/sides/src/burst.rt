// The memory after a burst: all its bytes are read before any is written.
ghost use Rattle.std.specs.Prelude.{◌≡◌, true, false, ◌≤◌, ◌<◌, length};
ghost use Rattle.memory.specs.Burst.{longest_burst};
ghost use Rattle.sides.specs.Sides.{place_of, Inside, sides_moved};

use crate::side::Side;
use crate::word::{LONGEST_WORD, copy_part, read_word, write_word};
use memory::burst::copy;

// The three that follow are alike in what they are handed alone: which side is fixed makes each a rule of its own.

// From a fixed word: it is written once, and what is written then doubles until all of the burst is there.
fn fill(
    memory: &mut [u8],
    width: usize,
    source: usize,
    destination: usize,
    from: usize,
    count: usize,
)
    requires width_nonzero { (0 < width) × (width ≤ 128) × (0 < count) × (count ≤ longest_burst) }
    requires inside { Inside (length memory.old) (place_of true width source) from count }
    requires inside_2 { Inside (length memory.old) (place_of false width destination) from count }
    ensures { memory.new ≡ sides_moved memory.old (place_of true width source) (place_of false width destination) from count }
{
    let mut held = [0u8; LONGEST_WORD];
    let first = count.min(width);
    read_word(memory, width, source, from, first, &mut held);
    let to = destination + from;
    copy_part(&held, 0, first, memory, to);
    let mut done = first;
    // What is there doubles from turn to turn: no iterator counts that.
    while done < count {
        let more = done.min(count - done);
        copy(memory, to, to + done, more);
        done += more;
    }
}

// To a fixed word: each beat overwrites the one before, so the last word of the bytes is all that is written.
fn push(
    memory: &mut [u8],
    width: usize,
    source: usize,
    destination: usize,
    from: usize,
    count: usize,
)
    requires width_nonzero { (0 < width) × (width ≤ 128) × (0 < count) × (count ≤ longest_burst) }
    requires inside { Inside (length memory.old) (place_of false width source) from count }
    requires inside_2 { Inside (length memory.old) (place_of true width destination) from count }
    ensures { memory.new ≡ sides_moved memory.old (place_of false width source) (place_of true width destination) from count }
{
    let mut held = [0u8; LONGEST_WORD];
    let kept = count.min(width);
    let last = from + (count - kept);
    copy_part(memory, source + last, kept, &mut held, 0);
    write_word(memory, width, destination, last, kept, &held);
}

// From one fixed word to another. `from` is not bounded by the memory here, but its place in a word is.
fn pass(
    memory: &mut [u8],
    width: usize,
    source: usize,
    destination: usize,
    from: usize,
    count: usize,
)
    requires width_nonzero { (0 < width) × (width ≤ 128) × (0 < count) × (count ≤ longest_burst) }
    requires inside { Inside (length memory.old) (place_of true width source) from count }
    requires inside_2 { Inside (length memory.old) (place_of true width destination) from count }
    ensures { memory.new ≡ sides_moved memory.old (place_of true width source) (place_of true width destination) from count }
{
    let mut held = [0u8; LONGEST_WORD];
    let kept = count.min(width);
    let last = from % width + (count - kept);
    read_word(memory, width, source, last, kept, &mut held);
    write_word(memory, width, destination, last, kept, &held);
}

// The `count` bytes of a transfer from its byte `from` on, each side fixed or not.
pub fn move_bytes(
    memory: &mut [u8],
    width: usize,
    source: Side,
    destination: Side,
    from: usize,
    count: usize,
)
    requires width_nonzero { (0 < width) × (width ≤ 128) × (0 < count) × (count ≤ longest_burst) }
    requires inside { Inside (length memory.old) (place_of source.fixed width source.start) from count }
    requires inside_2 { Inside (length memory.old) (place_of destination.fixed width destination.start) from count }
    ensures { memory.new ≡ sides_moved memory.old (place_of source.fixed width source.start) (place_of destination.fixed width destination.start) from count }
{
    let reads = source.start;
    let writes = destination.start;
    if source.fixed {
        if destination.fixed {
            pass(memory, width, reads, writes, from, count);
        } else {
            fill(memory, width, reads, writes, from, count);
        }
    } else if destination.fixed {
        push(memory, width, reads, writes, from, count);
    } else {
        copy(memory, reads + from, writes + from, count);
    }
}
