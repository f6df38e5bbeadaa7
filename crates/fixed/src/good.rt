// How far a transfer with a fixed side (key hole) is known to be good. A fixed side's word is judged once, and whole: if part of it
// is bad nothing is known to be good, and a step judges those bytes that its burst uses.
ghost use Rattle.std.specs.Prelude.{◌≡◌, ◌+◌, ◌<◌};
ghost use Rattle.kit.specs.Limits.{address_end};
ghost use Rattle.memory.specs.Windows.{windows_of};
ghost use Rattle.fixed.specs.Fixed.{good_side, good_sides};

use kit::limits::MOST_BYTES;
use memory::good::good_bytes;
use sides::side::Side;
use state::engine::Control;
use state::moving::Moving;
use steps::move_burst::{destination_side, source_side};

// The bytes of a transfer from byte `moved` on that are known to be good on a side.
fn good_side(size: usize, windows: &[u32], width: u32, side: Side, moved: u32) -> u64
    requires { side.start + moved < address_end }
    ensures { result ≡ good_side size (windows_of windows.now) width side.fixed side.start moved }
{
    let start = side.start as u64;
    if side.fixed {
        if good_bytes(size, windows, start) < width as u64 {
            return 0;
        }
        return MOST_BYTES as u64;
    }
    good_bytes(size, windows, start + moved as u64)
}

// The same on both sides.
pub fn good_sides(size: usize, windows: &[u32], control: Control, moving: Moving) -> u64
    ensures { result ≡ good_sides size (windows_of windows.now) moving.settings.width control.keyholeread control.keyholewrite moving.transfer }
{
    let width = moving.settings.width;
    let transfer = moving.transfer;
    let source = source_side(control, transfer);
    let destination = destination_side(control, transfer);
    let read = good_side(size, windows, width, source, transfer.moved);
    read.min(good_side(size, windows, width, destination, transfer.moved))
}
