// Halting: Idle and Err_Irq set beside the error bit, current kept.
ghost use Rattle.std.specs.Prelude.{◌≡◌};
ghost use Rattle.memory.specs.Windows.{windows_of};
ghost use Rattle.memory.specs.Verdict.{group_of};
ghost use Rattle.steps.specs.Step.{stop_on_error_of, halt_of, chain_error_of};

use crate::event::{Advanced, Event};
use memory::verdict::{Verdict, judge};
use state::engine::{Engine, ErrorBit, Phase, Status, bit_number};

pub fn stop_on_error(engine: Engine, bit: ErrorBit) -> Engine
    ensures { result ≡ stop_on_error_of engine bit }
{
    let status = Status {
        fault: bit,
        ioc: engine.status.ioc,
        err: true,
    };
    Engine {
        status,
        phase: Phase::Idle,
        ..engine
    }
}

// A fetch or an update that ends without going on or writing.
pub fn halt(engine: Engine, bit: ErrorBit) -> Advanced
    ensures { result ≡ halt_of engine bit }
{
    Advanced {
        event: Event::Halt {
            current: engine.pointers.current,
            bit: bit_number(bit),
        },
        engine: stop_on_error(engine, bit),
    }
}

// The error bit of some bytes of a descriptor, if memory does not take them.
pub fn chain_error(size: usize, windows: &[u32], start: u32, bytes: u32) -> Option<ErrorBit>
    ensures { result ≡ chain_error_of (group_of size (windows_of windows.now) start bytes) }
{
    match judge(size, windows, start, bytes) {
        Verdict::Okay => None,
        Verdict::Slave => Some(ErrorBit::SgSlvErr),
        Verdict::Decode => Some(ErrorBit::SgDecErr),
    }
}
