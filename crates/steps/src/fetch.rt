// The fetch of a descriptor at current.
ghost use Rattle.std.specs.Prelude.{◌≡◌, ◌<◌};
ghost use Rattle.memory.specs.Windows.{windows_of};
ghost use Rattle.steps.specs.Step.{phase_after_fetch_of, accept_of, fetch_of};

use crate::event::{Advanced, Event};
use crate::halt::{chain_error, halt};
use state::descriptor::{BYTES, Descriptor, load_descriptor, start_transfer};
use state::engine::{Engine, ErrorBit, Outcome, Phase, Pointers, Transfer};

// A transfer that does not start goes to update with an internal error.
fn phase_after_fetch(start: Option<Transfer>) -> Phase
    ensures { result ≡ phase_after_fetch_of start }
{
    match start {
        Some(transfer) => Phase::Move(transfer),
        None => Phase::Update(Outcome::Internal),
    }
}

// A descriptor that memory gave: a stale one halts.
#[tactic(auto, unfolding(crate::specs::Step::accept_of))]
fn accept(engine: Engine, descriptor: Descriptor) -> Advanced
    requires { 0 < engine.settings.width }
    ensures { result ≡ accept_of engine descriptor }
{
    if descriptor.stale {
        return halt(engine, ErrorBit::SgIntErr);
    }
    let start = start_transfer(
        engine.settings.width,
        engine.control,
        descriptor.source,
        descriptor.destination,
        descriptor.count,
    );
    let phase = phase_after_fetch(start);
    let pointers = Pointers {
        heldnext: descriptor.next,
        ..engine.pointers
    };
    Advanced {
        event: Event::Fetch(engine.pointers.current),
        engine: Engine {
            pointers,
            phase,
            ..engine
        },
    }
}

pub fn fetch(engine: Engine, memory: &[u8], windows: &[u32]) -> Advanced
    requires { 0 < engine.settings.width }
    ensures { result ≡ fetch_of engine memory.now (windows_of windows.now) }
{
    let current = engine.pointers.current;
    if let Some(bit) = chain_error(memory.len(), windows, current, BYTES as u32) {
        return halt(engine, bit);
    }
    accept(engine, load_descriptor(memory, current as usize))
}
