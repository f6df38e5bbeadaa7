// What memory answers for a group of bytes, over lent windows.
ghost use Rattle.std.specs.Prelude.{◌≡◌};
ghost use Rattle.memory.specs.Verdict.{group_of};
ghost use Rattle.places.specs.Locate.{located_of, located_seen};
ghost use Rattle.windows.specs.Flat.{flat_of};
ghost use Rattle.windows.specs.Lookup.{touched_of, past_of, decide_of};

use crate::table::table_of;
use kit::answer::Refusal;
use memory::verdict::Verdict;
use memory::window::{Window, touches};
use places::locate::Located;

// The verdict of the `bytes` bytes from `start` on, in a memory of `size` bytes.
pub fn judge(size: usize, windows: &[Window], start: u64, bytes: u64) -> Verdict
    ensures { result ≡ group_of size windows.now start bytes }
{
    let end = past(start, bytes);
    let sick = sick_among(windows, start, end);
    decide(size, start, bytes, sick)
}

// What `locate` of places gives, over lent windows: a refusal, or the verdict, its place and its window.
pub fn locate(size: usize, windows: &[Window], start: u32, bytes: u32) -> Result<Located, Refusal>
    ensures { located_seen result ≡ located_of size (flat_of windows.now) start bytes }
{
    let table = table_of(windows);
    places::locate::locate(size, table.numbers(), start, bytes)
}

// Whether one of the windows has one of the bytes from `start` up to, not including, `end`.
fn sick_among(windows: &[Window], start: u64, end: u64) -> bool
    ensures { result ≡ touched_of windows.now start end }
{
    windows.iter().any(|window| touches(*window, start, end))
}

// One past a group's last byte, or the greatest number where the sum would wrap.
#[tactic(auto, unfolding(crate::specs::Lookup::past_of))]
fn past(start: u64, bytes: u64) -> u64
    ensures { result ≡ past_of start bytes }
{
    start.saturating_add(bytes)
}

// A group whose end wraps is past any memory.
#[tactic(auto, unfolding(crate::specs::Lookup::decide_of))]
fn decide(size: usize, start: u64, bytes: u64, sick: bool) -> Verdict
    ensures { result ≡ decide_of size start bytes sick }
{
    if bytes == 0 {
        return Verdict::Okay;
    }
    let Some(end) = start.checked_add(bytes) else {
        return Verdict::Decode;
    };
    if (size as u64) < end {
        return Verdict::Decode;
    }
    if sick {
        return Verdict::Slave;
    }
    Verdict::Okay
}
