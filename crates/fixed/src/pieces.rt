// Pieces to a fixed destination (key hole) that can be moved as one: each overwrites the one before, and if none of the
// transfer's bytes is read from that destination nothing sees what the earlier ones wrote.
ghost use Rattle.std.specs.Prelude.{◌≡◌, true, ◌<◌, IfSome};
ghost use Rattle.memory.specs.Windows.{windows_of};
ghost use Rattle.sides.specs.Sides.{side_bytes, Apart};
ghost use Rattle.fixed.specs.Fixed.{PiecesAhead};

use crate::good::good_sides;
use state::engine::Control;
use state::moving::Moving;
use steps::move_burst::next_bytes;

// The bytes from its start on that a side uses.
fn side_bytes(fixed: bool, width: u32, total: u32) -> u32
    ensures { result ≡ side_bytes fixed width total }
{
    if fixed { width } else { total }
}

// Two ranges of bytes do not overlap.
fn apart(first: u32, count: u32, second: u32, number: u32) -> bool
    ensures { result ≡ true → Apart first count second number }
{
    if first as u64 + count as u64 <= second as u64 {
        return true;
    }
    second as u64 + number as u64 <= first as u64
}

// How many of them come next, all of one length and known to be good, up to `most`, if there are any.
pub fn pieces_ahead(
    control: Control,
    moving: Moving,
    size: usize,
    windows: &[u32],
    most: u32,
) -> Option<u32>
    ensures some { IfSome result (λ n. 0 < n) }
    ensures ahead { IfSome result (PiecesAhead moving.settings control.keyholeread control.keyholewrite moving.transfer size (windows_of windows.now) most) }
{
    let width = moving.settings.width;
    let transfer = moving.transfer;
    if !control.keyholewrite {
        return None;
    }
    let used = side_bytes(control.keyholeread, width, transfer.total);
    if !apart(transfer.source, used, transfer.destination, width) {
        return None;
    }
    let good = good_sides(size, windows, control, moving);
    let left = good.min((transfer.total - transfer.moved) as u64);
    let bytes = next_bytes(moving, control.keyholewrite);
    let pieces = (left / bytes as u64).min(most as u64) as u32;
    if pieces == 0 {
        return None;
    }
    Some(pieces)
}
