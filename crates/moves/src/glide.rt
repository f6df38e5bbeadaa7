// Bursts of a transfer whose sides both increment, one after the other, while they do not fail. The loop carries the transfer alone, and how far memory
// is good is asked once, as a burst changes bytes and not how they answer.
ghost use Rattle.std.specs.Prelude.{◌≡◌, false, ◌≤◌, length};
ghost use Rattle.kit.specs.Limits.{most_memory};
ghost use Rattle.memory.specs.Windows.{windows_of};
ghost use Rattle.moves.specs.Moves.{good_ahead, Glides};

use cut::{Burst, bytes_within, span, words_left};
use memory::burst::copy;
use memory::good::good_bytes;
use state::moving::Moving;

// The bytes moved by now, the last burst, of no meaning if there was none, and how many there were.
#[derive(Clone, Copy)]
pub struct Glided {
    pub moved: u32,
    pub last: Burst,
    pub steps: u32,
}

// The bytes that are good from where the transfer's next burst is read and from where it is written.
fn good_ahead(size: usize, windows: &[u32], moving: Moving) -> u64
    ensures { result ≡ good_ahead size (windows_of windows.now) moving.transfer }
{
    let transfer = moving.transfer;
    let from = transfer.source + transfer.moved;
    let to = transfer.destination + transfer.moved;
    let read = good_bytes(size, windows, from as u64);
    read.min(good_bytes(size, windows, to as u64))
}

// Up to `most` bursts of the transfer, ended early by its end and before one that fails.
pub fn glide(moving: Moving, memory: &mut [u8], windows: &[u32], most: u32) -> Glided
    requires { length memory.old ≤ most_memory }
    ensures glides { Glides moving.settings false false moving.transfer (windows_of windows.now) memory.old result memory.new }
    ensures steps_le_most { result.steps ≤ most }
{
    // Taken from here: in the loop no field of `moving` is read.
    let settings = moving.settings;
    let transfer = moving.transfer;
    let mut moved = transfer.moved;
    let limit = moved as u64 + good_ahead(memory.len(), windows, moving);
    let start = transfer.destination + moved;
    let mut words = words_left(settings.width, settings.beats, start as u64);
    let mut last = Burst { start, bytes: 0 };
    let mut steps: u32 = 0;
    while steps < most {
        if moved == transfer.total {
            break;
        }
        let to = transfer.destination + moved;
        let bytes = bytes_within(words, to as u64, transfer.total - moved);
        if limit < moved as u64 + bytes as u64 {
            break;
        }
        let from = transfer.source + moved;
        copy(memory, from as usize, to as usize, bytes as usize);
        last = Burst { start: to, bytes };
        moved += bytes;
        words = span(settings.width, settings.beats);
        steps += 1;
    }
    Glided { moved, last, steps }
}
