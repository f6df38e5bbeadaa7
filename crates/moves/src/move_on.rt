// One burst of a transfer whose sides both increment, that neither fails nor ends it: after it only the bytes moved differ.
ghost use Rattle.memory.specs.Windows.{windows_of};
ghost use Rattle.moves.specs.Moves.{MovesOn};

use cut::{Burst, burst_bytes};
use memory::burst::copy;
use memory::verdict::{Verdict, judge_pair};
use state::moving::Moving;

// A step of an engine in the midst of the transfer, for a caller that only adds the bytes of the burst that was moved to `moved`.
// A burst that fails or is the last one changes more than that and is left to a whole step: then nothing is done.
pub fn move_on(moving: Moving, memory: &mut [u8], windows: &[u32]) -> Option<Burst>
    ensures { MovesOn moving.settings moving.transfer (windows_of windows.now) memory.old result memory.new }
{
    let settings = moving.settings;
    let transfer = moving.transfer;
    let from = transfer.source + transfer.moved;
    let to = transfer.destination + transfer.moved;
    let left = transfer.total - transfer.moved;
    let bytes = burst_bytes(settings.width, settings.beats, to as u64, left);
    if bytes == left {
        return None;
    }
    let Verdict::Okay = judge_pair(memory.len(), windows, from, to, bytes) else {
        return None;
    };
    copy(memory, from as usize, to as usize, bytes as usize);
    Some(Burst { start: to, bytes })
}
