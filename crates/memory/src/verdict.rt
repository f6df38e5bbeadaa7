// RULES.md, "Memory that answers badly": what memory answers for a group of bytes. A group is judged by its start and
// length, with one look at each window: no work grows with the bytes, and no end is reckoned before it is known to fit.
ghost use Rattle.std.specs.Prelude.{◌≡◌, ◌+◌, ◌<◌};
ghost use Rattle.kit.specs.Choice.{either as either_of};
ghost use Rattle.memory.specs.Interval.{hit};
ghost use Rattle.memory.specs.Windows.{windows_of};
ghost use Rattle.memory.specs.Verdict.{group_of, pair_of};

use crate::window::{meets, window_in};
use kit::logic::either;

#[derive(Clone, Copy, PartialEq, Eq, PartialOrd, Ord)]
pub enum Verdict {
    Okay,
    Slave,
    Decode,
}

// Whether a window has one of the `bytes` bytes from `first` on or from `second` on. All windows are looked at, without a branch
// among them: which of them start below a group is anyone's guess, and so the compiler takes four at a time.
fn any_meets(windows: &[u32], first: u32, second: u32, bytes: u32) -> bool
    requires { 0 < bytes }
    ensures { result ≡ either_of (hit (windows_of windows.now) first (first + bytes)) (hit (windows_of windows.now) second (second + bytes)) }
{
    let mut met = false;
    for pair in windows.chunks_exact(2) {
        let window = window_in(pair);
        let here = either(meets(window, first, bytes), meets(window, second, bytes));
        met = either(met, here);
    }
    met
}

// The worse verdict of two groups of `bytes` bytes, from `first` and from `second` on, in a memory of `size` bytes: a move's
// source and destination.
pub fn judge_pair(size: usize, windows: &[u32], first: u32, second: u32, bytes: u32) -> Verdict
    ensures { result ≡ pair_of size (windows_of windows.now) first second bytes }
{
    if bytes == 0 {
        return Verdict::Okay;
    }
    let count = bytes as usize;
    if size < count {
        return Verdict::Decode;
    }
    let last = size - count;
    if last < first as usize {
        return Verdict::Decode;
    }
    if last < second as usize {
        return Verdict::Decode;
    }
    if any_meets(windows, first, second, bytes) {
        return Verdict::Slave;
    }
    Verdict::Okay
}

// The verdict of one group, as of two that are the same: compiled, it holds each window against the group once.
pub fn judge(size: usize, windows: &[u32], start: u32, bytes: u32) -> Verdict
    ensures { result ≡ group_of size (windows_of windows.now) start bytes }
{
    judge_pair(size, windows, start, start, bytes)
}
