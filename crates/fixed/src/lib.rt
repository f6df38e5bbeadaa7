// RULES.md, "Descriptor and steps", key hole: bursts of a transfer with a fixed side, moved as those of crate moves are.
#![tactic(auto)]

mod good;
mod pieces;

ghost use Rattle.std.specs.Prelude.{◌≤◌, length};
ghost use Rattle.kit.specs.Limits.{most_memory};
ghost use Rattle.memory.specs.Windows.{windows_of};
ghost use Rattle.moves.specs.Moves.{Glides};

use crate::good::good_sides;
use crate::pieces::pieces_ahead;
use cut::Burst;
use moves::glide::Glided;
use sides::burst::move_bytes;
use state::engine::{Control, Transfer};
use state::moving::Moving;
use steps::move_burst::{destination_side, next_bytes, source_side, told_at};

// Up to `most` bursts of the transfer, one after the other.
fn each(control: Control, moving: Moving, memory: &mut [u8], windows: &[u32], most: u32) -> Glided
    requires { length memory.old ≤ most_memory }
    ensures glides { Glides moving.settings control.keyholeread control.keyholewrite moving.transfer (windows_of windows.now) memory.old result memory.new }
    ensures steps_le_most { result.steps ≤ most }
{
    let settings = moving.settings;
    let transfer = moving.transfer;
    let mut moved = transfer.moved;
    let good = good_sides(memory.len(), windows, control, moving);
    let limit = moved as u64 + good;
    let mut last = Burst {
        start: transfer.destination,
        bytes: 0,
    };
    // The number of bursts is told too, so the loop goes by it: a range would count beside it.
    let mut steps: u32 = 0;
    while steps < most {
        if moved == transfer.total {
            break;
        }
        let here = Moving {
            settings,
            transfer: Transfer { moved, ..transfer },
        };
        let bytes = next_bytes(here, control.keyholewrite);
        if limit < moved as u64 + bytes as u64 {
            break;
        }
        let start = told_at(control.keyholewrite, here.transfer);
        move_bytes(
            memory,
            settings.width as usize,
            source_side(control, transfer),
            destination_side(control, transfer),
            moved as usize,
            bytes as usize,
        );
        last = Burst { start, bytes };
        moved += bytes;
        steps += 1;
    }
    Glided { moved, last, steps }
}

// Up to `most` bursts of the transfer, ended early by its end and before one that is not known to be good. Of pieces that can be
// moved as one only the last is moved.
pub fn glide_fixed(
    control: Control,
    moving: Moving,
    memory: &mut [u8],
    windows: &[u32],
    most: u32,
) -> Glided
    requires { length memory.old ≤ most_memory }
    ensures glides { Glides moving.settings control.keyholeread control.keyholewrite moving.transfer (windows_of windows.now) memory.old result memory.new }
    ensures steps_le_most { result.steps ≤ most }
{
    let Some(steps) = pieces_ahead(control, moving, memory.len(), windows, most) else {
        return each(control, moving, memory, windows, most);
    };
    let transfer = moving.transfer;
    let start = transfer.destination;
    let bytes = next_bytes(moving, control.keyholewrite);
    let moved = transfer.moved + steps * bytes;
    let from = moved - bytes;
    move_bytes(
        memory,
        moving.settings.width as usize,
        source_side(control, transfer),
        destination_side(control, transfer),
        from as usize,
        bytes as usize,
    );
    Glided {
        moved,
        last: Burst { start, bytes },
        steps,
    }
}
