// What memory answers for a group of bytes, where, and in which window, as a caller asks for it: any size, any windows, any
// group.
ghost use Rattle.std.specs.Prelude.{◌≡◌, ◌/◌, ◌≤◌, length};
ghost use Rattle.kit.specs.Limits.{most_windows};
ghost use Rattle.memory.specs.Windows.{windows_of};
ghost use Rattle.places.specs.Places.{holder_of, window_by};
ghost use Rattle.places.specs.Locate.{verdict_number, located_of, located_seen};

use crate::group::lowest;
use kit::answer::Refusal;
use kit::limits::{MOST_MEMORY, MOST_WINDOWS};
use memory::verdict::{Verdict, judge};
use memory::window::{touches, window_in};

// What the bytes answered, the lowest byte that gave it, and for a slave error the number of the first window that holds this
// byte, from 0. Where there is no such byte or window it is 0.
#[derive(Clone, Copy)]
pub struct Located {
    pub verdict: Verdict,
    pub place: u32,
    pub window: u32,
}

// A verdict by its number.
pub fn verdict_number(verdict: Verdict) -> u32
    ensures { result ≡ verdict_number verdict }
{
    match verdict {
        Verdict::Okay => 0,
        Verdict::Slave => 1,
        Verdict::Decode => 2,
    }
}

// The first window that holds the byte at `address`.
fn holder(windows: &[u32], address: u32) -> u32
    requires { length windows.now / 2 ≤ most_windows }
    ensures { result ≡ holder_of (windows_of windows.now) address }
{
    for (number, pair) in windows.chunks_exact(2).enumerate() {
        let window = window_in(pair);
        if touches(window, address as u64, address as u64 + 1) {
            return number as u32;
        }
    }
    (windows.len() / 2) as u32
}

// The window beside a verdict: a slave error's alone.
fn window_of(windows: &[u32], verdict: Verdict, address: u32) -> u32
    requires { length windows.now / 2 ≤ most_windows }
    ensures { result ≡ window_by (windows_of windows.now) verdict address }
{
    if verdict == Verdict::Slave {
        holder(windows, address)
    } else {
        0
    }
}

// The `bytes` bytes from `start` on, in a memory of `size` bytes.
#[tactic(auto, unfolding(crate::specs::Locate::located_of))]
pub fn locate(size: usize, windows: &[u32], start: u32, bytes: u32) -> Result<Located, Refusal>
    ensures { located_seen result ≡ located_of size windows.now start bytes }
{
    if size > MOST_MEMORY {
        return Err(Refusal::MemorySize);
    }
    if windows.len() / 2 > MOST_WINDOWS {
        return Err(Refusal::WindowCount);
    }
    let verdict = judge(size, windows, start, bytes);
    let place = lowest(size, windows, verdict, start, bytes).unwrap_or(0);
    let window = window_of(windows, verdict, place);
    Ok(Located {
        verdict,
        place,
        window,
    })
}
