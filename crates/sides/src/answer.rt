// What memory answers for the bytes of a burst, those and no others, on both sides together.
ghost use Rattle.std.specs.Prelude.{◌≡◌, true, ◌+◌, ◌≤◌, ◌<◌};
ghost use Rattle.kit.specs.Limits.{most_memory, address_end};
ghost use Rattle.memory.specs.Windows.{windows_of};
ghost use Rattle.sides.specs.Sides.{place_of, side_answer, sides_answer};

use crate::side::Side;
use kit::limits::MOST_MEMORY;
use memory::verdict::{Verdict, judge};

// The `count` bytes from the transfer's byte `from` on, in the word at `start`: up to the word's end, and from its front on.
fn judge_word(
    size: usize,
    windows: &[u32],
    width: u32,
    start: usize,
    from: u32,
    count: u32,
) -> Verdict
    requires { (0 < width) × (width ≤ 128) × (0 < count) × (size ≤ most_memory) }
    ensures { result ≡ side_answer size (windows_of windows.now) (place_of true width start) from count }
{
    // A word past any memory: no sum of addresses is made before it is known to fit.
    if MOST_MEMORY <= start {
        return Verdict::Decode;
    }
    let front = start as u32;
    let offset = from % width;
    let used = count.min(width);
    let first = used.min(width - offset);
    let upper = judge(size, windows, front + offset, first);
    let lower = judge(size, windows, front, used - first);
    upper.max(lower)
}

// The same on a side that may be fixed.
fn judge_side(
    size: usize,
    windows: &[u32],
    width: u32,
    side: Side,
    from: u32,
    count: u32,
) -> Verdict
    requires width_nonzero { (0 < width) × (width ≤ 128) × (0 < count) × (size ≤ most_memory) }
    requires from_bound { side.start + from < address_end }
    ensures { result ≡ side_answer size (windows_of windows.now) (place_of side.fixed width side.start) from count }
{
    if side.fixed {
        return judge_word(size, windows, width, side.start, from, count);
    }
    judge(size, windows, side.start as u32 + from, count)
}

// Both sides of a burst.
pub fn judge_sides(
    size: usize,
    windows: &[u32],
    width: u32,
    source: Side,
    destination: Side,
    from: u32,
    count: u32,
) -> Verdict
    requires width_nonzero { (0 < width) × (width ≤ 128) × (0 < count) × (size ≤ most_memory) }
    requires from_bound { (source.start + from < address_end) × (destination.start + from < address_end) }
    ensures { result ≡ sides_answer size (windows_of windows.now) (place_of source.fixed width source.start) (place_of destination.fixed width destination.start) from count }
{
    let reads = judge_side(size, windows, width, source, from, count);
    let writes = judge_side(size, windows, width, destination, from, count);
    reads.max(writes)
}
