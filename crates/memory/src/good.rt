// RULES.md, "Memory that answers badly": how far the bytes from a place on answer OKAY, asked once for many bursts.
ghost use Rattle.std.specs.Prelude.{◌≡◌};
ghost use Rattle.memory.specs.Windows.{windows_of};
ghost use Rattle.memory.specs.Good.{nearer_end, good_bytes};

use crate::window::{Window, touches, window_in};

// The end of the good bytes from `start` on: a window that has one of those before `end` brings it to its own start.
fn nearer_end(window: Window, start: u64, end: u64) -> u64
    ensures { result ≡ nearer_end window start end }
{
    if touches(window, start, end) {
        window.start as u64
    } else {
        end
    }
}

// The bytes from `start` on that answer OKAY, up to the first that does not, in a memory of `size` bytes.
pub fn good_bytes(size: usize, windows: &[u32], start: u64) -> u64
    ensures { result ≡ good_bytes size (windows_of windows.now) start }
{
    let mut end = size as u64;
    for pair in windows.chunks_exact(2) {
        let window = window_in(pair);
        end = nearer_end(window, start, end);
    }
    end.saturating_sub(start)
}
