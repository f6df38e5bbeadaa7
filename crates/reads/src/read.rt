// RULES.md, "Registers": reading a register.
ghost use Rattle.std.specs.Prelude.{◌≡◌, ◌≤◌, ◌^◌};
ghost use Rattle.reads.specs.Read.{bit_if, control_of, status_of, register_of, read_of, read_seen};

use kit::answer::Refusal;
use state::bits::{
    ERR_IRQ, ERR_IRQ_EN, IDLE, IOC_IRQ, IOC_IRQ_EN, IRQ_THRESHOLD, IRQ_THRESHOLD_STS,
    KEY_HOLE_READ, KEY_HOLE_WRITE, SG_INCLD, SG_MODE, TAIL_PNTR_EN,
};
use state::engine::{Control, Engine, Phase, Status, acceptable, bit_number, busy, error_set};

// A bit's value if it is set, else 0.
fn bit_if(set: bool, number: u32) -> u32
    requires { number ≤ 16 }
    ensures { (result ≡ bit_if set (2 ^ number)) × (result ≤ 2 ^ 16) }
{
    u32::from(set) << number
}

fn read_control(control: Control) -> u32
    ensures { result ≡ control_of control }
{
    bit_if(true, IRQ_THRESHOLD)
        + bit_if(true, TAIL_PNTR_EN)
        + bit_if(control.sgmode, SG_MODE)
        + bit_if(control.keyholeread, KEY_HOLE_READ)
        + bit_if(control.keyholewrite, KEY_HOLE_WRITE)
        + bit_if(control.iocen, IOC_IRQ_EN)
        + bit_if(control.erren, ERR_IRQ_EN)
}

fn read_status(status: Status, phase: Phase) -> u32
    ensures { result ≡ status_of status phase }
{
    let fault = status.fault;
    bit_if(true, IRQ_THRESHOLD_STS)
        + bit_if(true, SG_INCLD)
        + bit_if(!busy(phase), IDLE)
        + bit_if(error_set(fault), bit_number(fault))
        + bit_if(status.ioc, IOC_IRQ)
        + bit_if(status.err, ERR_IRQ)
}

// One arm a register, in PG034's order.
#[tactic(auto, unfolding(crate::specs::Read::register_of))]
fn read_register(engine: Engine, offset: u32) -> Result<u32, Refusal>
    ensures { read_seen result ≡ register_of engine offset }
{
    match offset {
        0x00 => Ok(read_control(engine.control)),
        0x04 => Ok(read_status(engine.status, engine.phase)),
        0x08 => Ok(engine.pointers.current),
        0x10 => Ok(engine.pointers.tail),
        0x18 => Ok(engine.simple.sa),
        0x20 => Ok(engine.simple.da),
        0x28 => Ok(engine.simple.btt),
        0x0c | 0x14 | 0x1c | 0x24 => Ok(0),
        _ => Err(Refusal::Offset),
    }
}

// Answers 1, 9 and 3 in their order, else the register's value.
pub fn read(engine: Engine, offset: u32) -> Result<u32, Refusal>
    ensures { read_seen result ≡ read_of engine offset }
{
    acceptable(engine)?;
    read_register(engine, offset)
}
