// A burst: its bytes are judged on both sides together, and moved if they are in order.
ghost use Rattle.std.specs.Prelude.{◌≡◌, ◌+◌, ◌≤◌, ◌<◌, length};
ghost use Rattle.kit.specs.Limits.{most_memory, address_end};
ghost use Rattle.memory.specs.Windows.{windows_of};
ghost use Rattle.memory.specs.Burst.{longest_burst};
ghost use Rattle.sides.specs.Sides.{place_of, sides_answer, carried_by};

use crate::answer::judge_sides;
use crate::burst::move_bytes;
use crate::side::Side;
use kit::logic::either;
use memory::burst::copy;
use memory::verdict::{Verdict, judge_pair};

// Whichever sides are fixed. It is apart so that what a fixed side needs stays out of the loop of a run, where it would slow
// down all other transfers.
fn carry_fixed(
    memory: &mut [u8],
    windows: &[u32],
    width: u32,
    source: Side,
    destination: Side,
    from: u32,
    count: u32,
) -> Verdict
    requires width_nonzero { (0 < width) × (width ≤ 128) × (0 < count) × (count ≤ longest_burst) × (length memory.old ≤ most_memory) }
    requires from_bound { (source.start + from < address_end) × (destination.start + from < address_end) }
    ensures value { result ≡ sides_answer (length memory.old) (windows_of windows.now) (place_of source.fixed width source.start) (place_of destination.fixed width destination.start) from count }
    ensures memory_after { memory.new ≡ carried_by result memory.old (place_of source.fixed width source.start) (place_of destination.fixed width destination.start) from count }
{
    let verdict = judge_sides(
        memory.len(),
        windows,
        width,
        source,
        destination,
        from,
        count,
    );
    if verdict == Verdict::Okay {
        move_bytes(
            memory,
            width as usize,
            source,
            destination,
            from as usize,
            count as usize,
        );
    }
    verdict
}

// The `count` bytes of a transfer from its byte `from` on, each side fixed or not: what they answer. Unless that is OKAY nothing
// is written.
pub fn carry(
    memory: &mut [u8],
    windows: &[u32],
    width: u32,
    source: Side,
    destination: Side,
    from: u32,
    count: u32,
) -> Verdict
    requires width_nonzero { (0 < width) × (width ≤ 128) × (0 < count) × (count ≤ longest_burst) × (length memory.old ≤ most_memory) }
    requires from_bound { (source.start + from < address_end) × (destination.start + from < address_end) }
    ensures value { result ≡ sides_answer (length memory.old) (windows_of windows.now) (place_of source.fixed width source.start) (place_of destination.fixed width destination.start) from count }
    ensures memory_after { memory.new ≡ carried_by result memory.old (place_of source.fixed width source.start) (place_of destination.fixed width destination.start) from count }
{
    if either(source.fixed, destination.fixed) {
        return carry_fixed(memory, windows, width, source, destination, from, count);
    }
    let at = source.start as u32 + from;
    let to = destination.start as u32 + from;
    let verdict = judge_pair(memory.len(), windows, at, to, count);
    if verdict == Verdict::Okay {
        copy(memory, at as usize, to as usize, count as usize);
    }
    verdict
}
