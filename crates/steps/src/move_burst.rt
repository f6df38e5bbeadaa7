// The move of the next burst of what remains of a transfer.
ghost use Rattle.std.specs.Prelude.{◌≡◌, true, ◌+◌, ◌≤◌, min, length};
ghost use Rattle.kit.specs.Limits.{most_bytes, most_memory};
ghost use Rattle.kit.specs.Settings.{legal_of};
ghost use Rattle.memory.specs.Windows.{windows_of};
ghost use Rattle.state.specs.State.{transfer_fits};
ghost use Rattle.steps.specs.Step.{advance_seen, piece_bytes, bytes_by, told_by, fault_by, continue_or_finish_of, after_burst_of, after_fault_of, move_burst_of};

use crate::event::{Advanced, Event};
use crate::halt::stop_on_error;
use cut::{Burst, burst_bytes, span};
use kit::settings::Settings;
use memory::verdict::Verdict;
use places::fault::fault_place;
use sides::carry::carry;
use sides::side::Side;
use state::engine::{Control, Engine, ErrorBit, Outcome, Phase, Transfer, bit_number};
use state::moving::Moving;

// A fixed destination takes pieces of at most so many beats.
const MOST_FIXED_BEATS: u32 = 16;

// Where a transfer is read: Key Hole Read fixes it at its word.
pub fn source_side(control: Control, transfer: Transfer) -> Side
    ensures start { result.start ≡ transfer.source }
    ensures fixed { result.fixed ≡ control.keyholeread }
{
    Side {
        start: transfer.source as usize,
        fixed: control.keyholeread,
    }
}

// Where it is written: Key Hole Write does.
pub fn destination_side(control: Control, transfer: Transfer) -> Side
    ensures start { result.start ≡ transfer.destination }
    ensures fixed { result.fixed ≡ control.keyholewrite }
{
    Side {
        start: transfer.destination as usize,
        fixed: control.keyholewrite,
    }
}

// The state after `moved` bytes of the transfer. After the last burst chain mode goes to update, and simple mode ends in
// this same step.
pub fn continue_or_finish(mut engine: Engine, transfer: Transfer, moved: u32) -> Engine
    ensures { result ≡ continue_or_finish_of engine transfer moved }
{
    let mut phase = Phase::Move(Transfer { moved, ..transfer });
    if moved == transfer.total {
        if engine.control.sgmode {
            phase = Phase::Update(Outcome::Complete);
        } else {
            engine.status.ioc = true;
            phase = Phase::Idle;
        }
    }
    Engine { phase, ..engine }
}

// A burst that memory took: the event, and the state after it.
fn after_burst(engine: Engine, transfer: Transfer, start: u32, bytes: u32) -> Advanced
    requires { transfer.moved + bytes ≤ most_bytes }
    ensures { result ≡ after_burst_of engine transfer start bytes }
{
    Advanced {
        event: Event::Move(Burst { start, bytes }),
        engine: continue_or_finish(engine, transfer, transfer.moved + bytes),
    }
}

// A burst that memory refused, and where: chain mode goes to update, simple mode halts.
fn after_fault(engine: Engine, place: u32, outcome: Outcome, bit: ErrorBit) -> Advanced
    ensures { result ≡ after_fault_of engine place outcome bit }
{
    let event = Event::Fault {
        place,
        bit: bit_number(bit),
    };
    if engine.control.sgmode {
        let phase = Phase::Update(outcome);
        return Advanced {
            event,
            engine: Engine { phase, ..engine },
        };
    }
    Advanced {
        event,
        engine: stop_on_error(engine, bit),
    }
}

// The bytes of a piece to a fixed destination that has `left` bytes to go.
fn piece_bytes(settings: Settings, left: u32) -> u32
    ensures { result ≡ min (piece_bytes settings) left }
{
    let beats = settings.beats.min(MOST_FIXED_BEATS);
    span(settings.width, beats).min(left as u64) as u32
}

// The bytes of the next burst, to a destination that is fixed or not.
pub fn next_bytes(moving: Moving, writes: bool) -> u32
    ensures { result ≡ bytes_by moving.settings writes moving.transfer }
{
    let settings = moving.settings;
    let transfer = moving.transfer;
    let left = transfer.total - transfer.moved;
    if writes {
        return piece_bytes(settings, left);
    }
    let to = transfer.destination + transfer.moved;
    burst_bytes(settings.width, settings.beats, to as u64, left)
}

// The place that its event tells, if memory takes it. A `Moving` in place of the transfer would ask for legal settings too.
pub fn told_at(writes: bool, transfer: Transfer) -> u32
    requires { transfer_fits transfer ≡ true }
    ensures { result ≡ told_by writes transfer }
{
    if writes {
        return transfer.destination;
    }
    transfer.destination + transfer.moved
}

// The byte at which memory refused it, which the event of a fault tells. It is looked for only after such a verdict.
fn fault_at(
    control: Control,
    moving: Moving,
    size: usize,
    windows: &[u32],
    bytes: u32,
    verdict: Verdict,
) -> u32
    requires { size ≤ most_memory }
    ensures { result ≡ fault_by moving.settings control.keyholeread control.keyholewrite moving.transfer size (windows_of windows.now) bytes verdict }
{
    fault_place(
        size,
        windows,
        verdict,
        moving.settings.width,
        source_side(control, moving.transfer),
        destination_side(control, moving.transfer),
        moving.transfer.moved,
        bytes,
    )
}

// The burst's source and destination bytes are judged together; nothing is written unless both are in order.
pub fn move_burst(
    engine: Engine,
    transfer: Transfer,
    memory: &mut [u8],
    windows: &[u32],
) -> Advanced
    requires settings_value { legal_of engine.settings ≡ true }
    requires transfer_value { transfer_fits transfer ≡ true }
    requires memory_len_bound { length memory.old ≤ most_memory }
    ensures { advance_seen result memory.new ≡ move_burst_of engine transfer memory.old (windows_of windows.now) }
{
    let control = engine.control;
    let moving = Moving {
        settings: engine.settings,
        transfer,
    };
    let bytes = next_bytes(moving, control.keyholewrite);
    let size = memory.len();
    let told = told_at(control.keyholewrite, transfer);
    let verdict = carry(
        memory,
        windows,
        engine.settings.width,
        source_side(control, transfer),
        destination_side(control, transfer),
        transfer.moved,
        bytes,
    );
    match verdict {
        Verdict::Okay => after_burst(engine, transfer, told, bytes),
        Verdict::Slave => {
            let place = fault_at(control, moving, size, windows, bytes, Verdict::Slave);
            after_fault(engine, place, Outcome::Slave, ErrorBit::DmaSlvErr)
        }
        Verdict::Decode => {
            let place = fault_at(control, moving, size, windows, bytes, Verdict::Decode);
            after_fault(engine, place, Outcome::Decode, ErrorBit::DmaDecErr)
        }
    }
}
