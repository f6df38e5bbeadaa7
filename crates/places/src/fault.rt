// Where a burst failed: the lowest byte that gave its answer, on the source side if that side gave it, else on the
// destination side.
ghost use Rattle.std.specs.Prelude.{◌≡◌, true, ◌+◌, ◌≤◌, ◌<◌};
ghost use Rattle.kit.specs.Limits.{most_memory, address_end};
ghost use Rattle.memory.specs.Windows.{windows_of};
ghost use Rattle.sides.specs.Sides.{place_of};
ghost use Rattle.places.specs.Places.{lowest_of, fault_of, address_of};

use crate::group::lowest;
use memory::verdict::Verdict;
use sides::side::Side;

// Of the `count` bytes from the transfer's byte `from` on, in the word at `start`. Those from the word's front on lie below those
// up to its end.
fn lowest_in_word(
    size: usize,
    windows: &[u32],
    verdict: Verdict,
    width: u32,
    start: u32,
    from: u32,
    count: u32,
) -> Option<u32>
    requires { (0 < width) × (size ≤ most_memory) × (start + from < address_end) }
    ensures { result ≡ lowest_of size (windows_of windows.now) verdict (place_of true width start) from count }
{
    let offset = from % width;
    let used = count.min(width);
    let upper = used.min(width - offset);
    let low = lowest(size, windows, verdict, start, used - upper);
    let high = lowest(size, windows, verdict, start + offset, upper);
    low.or(high)
}

// The same on a side that may be fixed.
fn lowest_on_side(
    size: usize,
    windows: &[u32],
    verdict: Verdict,
    width: u32,
    side: Side,
    from: u32,
    count: u32,
) -> Option<u32>
    requires { (0 < width) × (size ≤ most_memory) × (side.start + from < address_end) }
    ensures { result ≡ lowest_of size (windows_of windows.now) verdict (place_of side.fixed width side.start) from count }
{
    let start = side.start as u32;
    if side.fixed {
        return lowest_in_word(size, windows, verdict, width, start, from, count);
    }
    lowest(size, windows, verdict, start + from, count)
}

// The place of a burst that answered `verdict`.
pub fn fault_place(
    size: usize,
    windows: &[u32],
    verdict: Verdict,
    width: u32,
    source: Side,
    destination: Side,
    from: u32,
    count: u32,
) -> u32
    requires width_nonzero { (0 < width) × (size ≤ most_memory) }
    requires from_bound { (source.start + from < address_end) × (destination.start + from < address_end) }
    ensures { result ≡ address_of (fault_of size (windows_of windows.now) verdict (place_of source.fixed width source.start) (place_of destination.fixed width destination.start) from count) }
{
    let read = lowest_on_side(size, windows, verdict, width, source, from, count);
    read.or_else(|| lowest_on_side(size, windows, verdict, width, destination, from, count))
        .unwrap_or(0)
}
