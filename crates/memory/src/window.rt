// RULES.md, "Memory that answers badly": sick windows, parts of the memory whose bytes answer "slave error".
ghost use Rattle.std.specs.Prelude.{◌≡◌, ◌+◌, ◌<◌, ◌≤◌, length};
ghost use Rattle.memory.specs.Windows.{window_in};
ghost use Rattle.memory.specs.Interval.{touches_of};

use kit::logic::both;

// Start and length. The functions of this crate and of those above are lent windows as flat numbers, the two in turn, as C
// lends them (include/belikumba.h); the crate windows alone takes a slice of these. A window may be empty, overlap others or
// run past the memory's end.
#[derive(Clone, Copy)]
pub struct Window {
    pub start: u32,
    pub length: u32,
}

// The window that two numbers of a flat slice hold.
pub fn window_in(pair: &[u32]) -> Window
    requires { 2 ≤ length pair.now }
    ensures { result ≡ window_in pair.now }
{
    Window {
        start: pair[0],
        length: pair[1],
    }
}

// Whether the window has one of the bytes from `start` up to, not including, `end`. Sums are of 64 bits, so that no
// window's end wraps. Without the last test an empty window would touch a group around it.
pub fn touches(window: Window, start: u64, end: u64) -> bool
    ensures { result ≡ touches_of window start end }
{
    let first = window.start as u64;
    let past = first + window.length as u64;
    if first < end {
        if start < past {
            return 0 < window.length;
        }
    }
    false
}

// The same for the `bytes` bytes from `start` on, told by how far the one start is above the other: no sum can leave 32 bits,
// so the compiler looks at four windows at a time.
pub fn meets(window: Window, start: u32, bytes: u32) -> bool
    requires { 0 < bytes }
    ensures { result ≡ touches_of window start (start + bytes) }
{
    both(
        start.saturating_sub(window.start) < window.length,
        window.start.saturating_sub(start) < bytes,
    )
}
