// The engine's state. What only a phase needs lives in that phase; what outlives it stands beside it.
ghost use Rattle.std.specs.Prelude.{◌≡◌, ◌+◌, ltb};
ghost use Rattle.kit.specs.Answer.{answer_number};
ghost use Rattle.kit.specs.Choice.{when};
ghost use Rattle.kit.specs.Limits.{address_end};
ghost use Rattle.kit.specs.Settings.{legal_of};
ghost use Rattle.state.specs.Bits.{error_bit_of};
ghost use Rattle.state.specs.State.{fresh_of, busy_of, error_set_of, aligned, transfer_fits, phase_fits, well_formed_of, interrupt_line_of};

use crate::bits::{DMA_DEC_ERR, DMA_INT_ERR, DMA_SLV_ERR, SG_DEC_ERR, SG_INT_ERR, SG_SLV_ERR};
use crate::descriptor::ALIGNMENT;
use kit::answer::{Answer, Refusal};
use kit::limits::MOST_BYTES;
use kit::settings::{Settings, legal};

// CDMACR's kept bits: SGMode, Key Hole Read and Write (source and destination fixed), IOC_IrqEn, Err_IrqEn.
#[derive(Clone, Copy)]
pub struct Control {
    pub sgmode: bool,
    pub keyholeread: bool,
    pub keyholewrite: bool,
    pub iocen: bool,
    pub erren: bool,
}

// CDMASR's error bits: at most one of them is ever set, as an error halts the engine and only a reset goes on. `Clear`, that
// none is set, stands in one list with them, as its number 0 does in C's words: an Option of a bit is no plainer.
#[derive(Clone, Copy)]
pub enum ErrorBit {
    Clear,
    DmaIntErr,
    DmaSlvErr,
    DmaDecErr,
    SgIntErr,
    SgSlvErr,
    SgDecErr,
}

// CDMASR's error bit, IOC_Irq and Err_Irq.
#[derive(Clone, Copy)]
pub struct Status {
    pub fault: ErrorBit,
    pub ioc: bool,
    pub err: bool,
}

// CURDESC, TAILDESC, the next pointer, and the next pointer that a fetched descriptor holds.
#[derive(Clone, Copy)]
pub struct Pointers {
    pub current: u32,
    pub tail: u32,
    pub next: u32,
    pub heldnext: u32,
}

// SA, DA and BTT.
#[derive(Clone, Copy)]
pub struct Simple {
    pub sa: u32,
    pub da: u32,
    pub btt: u32,
}

// A transfer in its midst.
#[derive(Clone, Copy)]
pub struct Transfer {
    pub source: u32,
    pub destination: u32,
    pub total: u32,
    pub moved: u32,
}

// How a chain's transfer ended, for its status word.
#[derive(Clone, Copy)]
pub enum Outcome {
    Complete,
    Internal,
    Slave,
    Decode,
}

#[derive(Clone, Copy)]
pub enum Phase {
    Idle,
    Fetch,
    Move(Transfer),
    Update(Outcome),
}

#[derive(Clone, Copy)]
pub struct Engine {
    pub settings: Settings,
    pub control: Control,
    pub status: Status,
    pub pointers: Pointers,
    pub simple: Simple,
    pub phase: Phase,
}

// An engine after power-up or reset; any settings will do, and the first call on it judges them.
pub fn fresh(settings: Settings) -> Engine
    ensures { result ≡ fresh_of settings }
{
    Engine {
        settings,
        control: Control {
            sgmode: false,
            keyholeread: false,
            keyholewrite: false,
            iocen: false,
            erren: false,
        },
        status: Status {
            fault: ErrorBit::Clear,
            ioc: false,
            err: false,
        },
        pointers: Pointers {
            current: 0,
            tail: 0,
            next: 0,
            heldnext: 0,
        },
        simple: Simple {
            sa: 0,
            da: 0,
            btt: 0,
        },
        phase: Phase::Idle,
    }
}

// A phase other than idle.
pub fn busy(phase: Phase) -> bool
    ensures { result ≡ busy_of phase }
{
    !matches!(phase, Phase::Idle)
}

// An error bit is set.
pub fn error_set(bit: ErrorBit) -> bool
    ensures { result ≡ error_set_of bit }
{
    !matches!(bit, ErrorBit::Clear)
}

// The number of a CDMASR error bit.
pub fn bit_number(bit: ErrorBit) -> u32
    ensures { result ≡ error_bit_of bit }
{
    match bit {
        ErrorBit::Clear => 0,
        ErrorBit::DmaIntErr => DMA_INT_ERR,
        ErrorBit::DmaSlvErr => DMA_SLV_ERR,
        ErrorBit::DmaDecErr => DMA_DEC_ERR,
        ErrorBit::SgIntErr => SG_INT_ERR,
        ErrorBit::SgSlvErr => SG_SLV_ERR,
        ErrorBit::SgDecErr => SG_DEC_ERR,
    }
}

fn pointers_aligned(pointers: Pointers) -> bool
    ensures { result ≡ aligned pointers }
{
    (pointers.current % ALIGNMENT == 0)
        & (pointers.tail % ALIGNMENT == 0)
        & (pointers.next % ALIGNMENT == 0)
        & (pointers.heldnext % ALIGNMENT == 0)
}

// The byte `moved` bytes on is an address; told by the room above the start, so no sum can overflow.
fn inside(start: u32, moved: u32) -> bool
    ensures { result ≡ ltb (start + moved) address_end }
{
    moved <= u32::MAX - start
}

fn transfer_fits(transfer: Transfer) -> bool
    ensures { result ≡ transfer_fits transfer }
{
    (transfer.moved < transfer.total)
        & (transfer.total <= MOST_BYTES)
        & inside(transfer.source, transfer.moved)
        & inside(transfer.destination, transfer.moved)
}

fn phase_fits(phase: Phase, sgmode: bool) -> bool
    ensures { result ≡ phase_fits phase sgmode }
{
    match phase {
        Phase::Idle => true,
        Phase::Fetch => sgmode,
        Phase::Move(transfer) => transfer_fits(transfer),
        Phase::Update(_) => sgmode,
    }
}

// The state is well formed.
#[tactic(auto, unfolding(crate::specs::State::well_formed_of))]
pub fn well_formed(engine: Engine) -> bool
    ensures { result ≡ well_formed_of engine }
{
    let faulty = error_set(engine.status.fault);
    pointers_aligned(engine.pointers)
        & (engine.simple.btt <= MOST_BYTES)
        & !(faulty & busy(engine.phase))
        & phase_fits(engine.phase, engine.control.sgmode)
}

// What a register access and a look at the interrupt line judge first: settings that are not legal are refused with 1, and
// then a state that is not well formed with 9.
pub fn acceptable(engine: Engine) -> Answer
    ensures { answer_number result ≡ when (legal_of engine.settings) (when (well_formed_of engine) 0 9) 1 }
{
    if !legal(engine.settings) {
        return Err(Refusal::Settings);
    }
    if !well_formed(engine) {
        return Err(Refusal::State);
    }
    Ok(())
}

// The interrupt line: a cause that stands and is enabled.
pub fn interrupt_line(engine: Engine) -> bool
    ensures { result ≡ interrupt_line_of engine }
{
    (engine.status.ioc & engine.control.iocen) | (engine.status.err & engine.control.erren)
}
