// The update of a descriptor's status word.
ghost use Rattle.std.specs.Prelude.{◌≡◌, ◌%◌};
ghost use Rattle.memory.specs.Windows.{windows_of};
ghost use Rattle.state.specs.Bits.{alignment};
ghost use Rattle.steps.specs.Step.{advance_seen, status_word_of, complete_descriptor_of, retire_of, after_update_of, update_of};

use crate::event::{Advanced, Event};
use crate::halt::{chain_error, halt, stop_on_error};
use kit::word::store;
use state::descriptor::STATUS;
use state::engine::{Engine, ErrorBit, Outcome, Phase};

// The word for an outcome: complete is bit 31; an error only bit 30, 29 or 28.
fn status_word(outcome: Outcome) -> u32
    ensures { result ≡ status_word_of outcome }
{
    match outcome {
        Outcome::Complete => 0x80000000,
        Outcome::Internal => 0x10000000,
        Outcome::Slave => 0x20000000,
        Outcome::Decode => 0x40000000,
    }
}

// A good update: IOC_Irq, next is the held next; at the tail idle, else on to the next descriptor.
fn complete_descriptor(mut engine: Engine) -> Engine
    ensures { result ≡ complete_descriptor_of engine }
{
    let held = engine.pointers.heldnext;
    let mut phase = Phase::Idle;
    engine.status.ioc = true;
    engine.pointers.next = held;
    if engine.pointers.current != engine.pointers.tail {
        engine.pointers.current = held;
        phase = Phase::Fetch;
    }
    Engine { phase, ..engine }
}

fn retire(engine: Engine, outcome: Outcome) -> Engine
    ensures { result ≡ retire_of engine outcome }
{
    match outcome {
        Outcome::Complete => complete_descriptor(engine),
        Outcome::Internal => stop_on_error(engine, ErrorBit::DmaIntErr),
        Outcome::Slave => stop_on_error(engine, ErrorBit::DmaSlvErr),
        Outcome::Decode => stop_on_error(engine, ErrorBit::DmaDecErr),
    }
}

fn after_update(engine: Engine, outcome: Outcome, word: u32) -> Advanced
    ensures { result ≡ after_update_of engine outcome word }
{
    Advanced {
        event: Event::Update {
            current: engine.pointers.current,
            word,
        },
        engine: retire(engine, outcome),
    }
}

pub fn update(engine: Engine, outcome: Outcome, memory: &mut [u8], windows: &[u32]) -> Advanced
    requires { engine.pointers.current % alignment ≡ 0 }
    ensures { advance_seen result memory.new ≡ update_of engine outcome memory.old (windows_of windows.now) }
{
    let at = engine.pointers.current + STATUS as u32;
    if let Some(bit) = chain_error(memory.len(), windows, at, 4) {
        return halt(engine, bit);
    }
    let word = status_word(outcome);
    store(memory, at as usize, word);
    after_update(engine, outcome, word)
}
