// RULES.md, "Registers": writing a register. The engine is lent, and a write stores what it changes and no more: an engine that is
// handed in and handed back, beside a refusal, is copied whole at each write.
ghost use Rattle.std.specs.Prelude.{◌≡◌, ◌<◌};
ghost use Rattle.kit.specs.Answer.{answer_number};
ghost use Rattle.kit.specs.Choice.{when};
ghost use Rattle.state.specs.State.{error_set_of, busy_of, with_simple};
ghost use Rattle.registers.specs.Write.{control_from, mode_differs, cleared_of, guard_of, write_control_of, write_current_of, write_tail_of, write_count_of, register_written_of, write_of, write_seen, left};

use kit::answer::{Answer, Refusal};
use state::bits::{
    ERR_IRQ, ERR_IRQ_EN, IOC_IRQ, IOC_IRQ_EN, KEY_HOLE_READ, KEY_HOLE_WRITE, RESET, SG_MODE, bit,
};
use state::descriptor::{count, pointer, start_transfer};
use state::engine::{
    Control, Engine, ErrorBit, Phase, Simple, Status, acceptable, busy, error_set, fresh,
};

// Refused with 5 if an error bit is set, with 4 if the write is barred.
fn gate(status: Status, barred: bool) -> Answer
    ensures { answer_number result ≡ when (error_set_of status.fault) 5 (when barred 4 0) }
{
    if error_set(status.fault) {
        return Err(Refusal::ErrorSet);
    }
    if barred {
        return Err(Refusal::Busy);
    }
    Ok(())
}

fn control_bits(value: u32) -> Control
    ensures { result ≡ control_from value }
{
    Control {
        sgmode: bit(value, SG_MODE),
        keyholeread: bit(value, KEY_HOLE_READ),
        keyholewrite: bit(value, KEY_HOLE_WRITE),
        iocen: bit(value, IOC_IRQ_EN),
        erren: bit(value, ERR_IRQ_EN),
    }
}

// SGMode or a key hole bit differs: a busy engine keeps them.
fn mode_differs(new: Control, old: Control) -> bool
    ensures { result ≡ mode_differs new old }
{
    (new.sgmode != old.sgmode)
        | (new.keyholeread != old.keyholeread)
        | (new.keyholewrite != old.keyholewrite)
}

fn write_control(engine: &mut Engine, value: u32) -> Answer
    ensures { left result engine.new ≡ write_control_of engine.old value }
{
    if bit(value, RESET) {
        *engine = fresh(engine.settings);
        return Ok(());
    }
    let control = control_bits(value);
    if busy(engine.phase) & mode_differs(control, engine.control) {
        return Err(Refusal::Busy);
    }
    engine.control = control;
    Ok(())
}

// IOC_Irq and Err_Irq, each cleared by a 1.
fn clear_interrupts(status: Status, value: u32) -> Status
    ensures { result ≡ cleared_of status value }
{
    Status {
        ioc: status.ioc & !bit(value, IOC_IRQ),
        err: status.err & !bit(value, ERR_IRQ),
        ..status
    }
}

fn write_current(engine: &mut Engine, value: u32) -> Answer
    ensures { left result engine.new ≡ write_current_of engine.old value }
{
    gate(engine.status, busy(engine.phase))?;
    let current = pointer(value);
    engine.pointers.current = current;
    engine.pointers.next = current;
    Ok(())
}

// A tail that is written while busy is only replaced; written while idle it starts the chain.
fn write_tail(engine: &mut Engine, value: u32) -> Answer
    ensures { left result engine.new ≡ write_tail_of engine.old value }
{
    gate(engine.status, !engine.control.sgmode)?;
    engine.pointers.tail = pointer(value);
    if !busy(engine.phase) {
        engine.pointers.current = engine.pointers.next;
        engine.phase = Phase::Fetch;
    }
    Ok(())
}

// SA and DA: idle, they are replaced.
fn write_simple(engine: &mut Engine, simple: Simple) -> Answer
    ensures { left result engine.new ≡ guard_of engine.old (busy_of engine.old.phase) (with_simple engine.old simple) }
{
    gate(engine.status, busy(engine.phase))?;
    engine.simple = simple;
    Ok(())
}

// BTT starts a transfer, or ends in an internal error and stays idle.
fn write_count(engine: &mut Engine, value: u32) -> Answer
    requires { 0 < engine.old.settings.width }
    ensures { left result engine.new ≡ write_count_of engine.old value }
{
    gate(engine.status, busy(engine.phase) | engine.control.sgmode)?;
    let total = count(value);
    engine.simple.btt = total;
    match start_transfer(
        engine.settings.width,
        engine.control,
        engine.simple.sa,
        engine.simple.da,
        total,
    ) {
        Some(transfer) => engine.phase = Phase::Move(transfer),
        None => {
            engine.status.fault = ErrorBit::DmaIntErr;
            engine.status.err = true;
        }
    }
    Ok(())
}

// One arm a register, in PG034's order.
#[tactic(auto, unfolding(crate::specs::Write::register_written_of))]
fn write_register(engine: &mut Engine, offset: u32, value: u32) -> Answer
    requires { 0 < engine.old.settings.width }
    ensures { left result engine.new ≡ register_written_of engine.old offset value }
{
    let simple = engine.simple;
    match offset {
        0x00 => write_control(engine, value),
        0x04 => {
            engine.status = clear_interrupts(engine.status, value);
            Ok(())
        }
        0x08 => write_current(engine, value),
        0x10 => write_tail(engine, value),
        0x18 => write_simple(
            engine,
            Simple {
                sa: value,
                ..simple
            },
        ),
        0x20 => write_simple(
            engine,
            Simple {
                da: value,
                ..simple
            },
        ),
        0x28 => write_count(engine, value),
        0x0c | 0x14 | 0x1c | 0x24 => Ok(()),
        _ => Err(Refusal::Offset),
    }
}

// Answers 1, 9, 3, 5 and 4 in their order, else the register's rule. A write that is refused leaves the engine as it was.
pub fn write_to(engine: &mut Engine, offset: u32, value: u32) -> Answer
    ensures { left result engine.new ≡ write_of engine.old offset value }
{
    acceptable(*engine)?;
    write_register(engine, offset, value)
}

// The same of an engine by value: the state after the write, or the refusal alone.
pub fn write(engine: Engine, offset: u32, value: u32) -> Result<Engine, Refusal>
    ensures { write_seen engine result ≡ write_of engine offset value }
{
    let mut after = engine;
    match write_to(&mut after, offset, value) {
        Ok(()) => Ok(after),
        Err(refusal) => Err(refusal),
    }
}
