// include/belikumba.h, "Engine": an engine as the numbers that its caller keeps.
ghost use Rattle.std.specs.Prelude.{◌≡◌};
ghost use Rattle.words.specs.EngineWords.{phase_number_of, moving_of, words_of, stepped_words_of, error_bit_from, phase_from, settings_from, control_from, status_from, pointers_from, simple_from, transfer_from, engine_from};

use kit::settings::Settings;
use state::engine::{
    Control, Engine, ErrorBit, Outcome, Phase, Pointers, Simple, Status, Transfer, bit_number,
};

// An update by the bit of the status word that it is to write.
fn phase_number(phase: Phase) -> u32
    ensures { result ≡ phase_number_of phase }
{
    match phase {
        Phase::Idle => 0,
        Phase::Fetch => 1,
        Phase::Move(_) => 2,
        Phase::Update(Outcome::Internal) => 28,
        Phase::Update(Outcome::Slave) => 29,
        Phase::Update(Outcome::Decode) => 30,
        Phase::Update(Outcome::Complete) => 31,
    }
}

// The transfer that moves, or one of zeros.
fn moving(phase: Phase) -> Transfer
    ensures { result ≡ moving_of phase }
{
    match phase {
        Phase::Move(transfer) => transfer,
        _ => Transfer {
            source: 0,
            destination: 0,
            total: 0,
            moved: 0,
        },
    }
}

pub fn store(engine: Engine, words: &mut [u32; 22])
    ensures { words.new ≡ words_of engine }
{
    words[0] = engine.settings.width;
    words[1] = engine.settings.beats;
    words[2] = u32::from(engine.control.sgmode);
    words[3] = u32::from(engine.control.iocen);
    words[4] = u32::from(engine.control.erren);
    words[9] = engine.pointers.tail;
    words[12] = engine.simple.sa;
    words[13] = engine.simple.da;
    words[14] = engine.simple.btt;
    words[20] = u32::from(engine.control.keyholeread);
    words[21] = u32::from(engine.control.keyholewrite);
    store_stepped(engine, words);
}

// The engine after some steps, in place of the one that the words held: what only a register write changes stays as it stands.
pub fn store_stepped(engine: Engine, words: &mut [u32; 22])
    ensures { words.new ≡ stepped_words_of engine words.old }
{
    let transfer = moving(engine.phase);
    words[5] = bit_number(engine.status.fault);
    words[6] = u32::from(engine.status.ioc);
    words[7] = u32::from(engine.status.err);
    words[8] = engine.pointers.current;
    words[10] = engine.pointers.next;
    words[11] = engine.pointers.heldnext;
    words[15] = phase_number(engine.phase);
    words[16] = transfer.source;
    words[17] = transfer.destination;
    words[18] = transfer.total;
    words[19] = transfer.moved;
}

// C keeps a number here. One off the list is read as none, as `phase` below reads one as idle: neither can fail.
#[tactic(auto, unfolding(crate::specs::EngineWords::error_bit_from))]
fn error_bit(number: u32) -> ErrorBit
    ensures { result ≡ error_bit_from number }
{
    match number {
        4 => ErrorBit::DmaIntErr,
        5 => ErrorBit::DmaSlvErr,
        6 => ErrorBit::DmaDecErr,
        8 => ErrorBit::SgIntErr,
        9 => ErrorBit::SgSlvErr,
        10 => ErrorBit::SgDecErr,
        _ => ErrorBit::Clear,
    }
}

#[tactic(auto, unfolding(crate::specs::EngineWords::phase_from))]
pub fn phase(number: u32, transfer: Transfer) -> Phase
    ensures { result ≡ phase_from number transfer }
{
    match number {
        1 => Phase::Fetch,
        2 => Phase::Move(transfer),
        28 => Phase::Update(Outcome::Internal),
        29 => Phase::Update(Outcome::Slave),
        30 => Phase::Update(Outcome::Decode),
        31 => Phase::Update(Outcome::Complete),
        _ => Phase::Idle,
    }
}

pub fn settings(words: &[u32; 22]) -> Settings
    ensures { result ≡ settings_from words.now }
{
    Settings {
        width: words[0],
        beats: words[1],
    }
}

pub fn control(words: &[u32; 22]) -> Control
    ensures { result ≡ control_from words.now }
{
    Control {
        sgmode: words[2] == 1,
        keyholeread: words[20] == 1,
        keyholewrite: words[21] == 1,
        iocen: words[3] == 1,
        erren: words[4] == 1,
    }
}

pub fn status(words: &[u32; 22]) -> Status
    ensures { result ≡ status_from words.now }
{
    Status {
        fault: error_bit(words[5]),
        ioc: words[6] == 1,
        err: words[7] == 1,
    }
}

pub fn pointers(words: &[u32; 22]) -> Pointers
    ensures { result ≡ pointers_from words.now }
{
    Pointers {
        current: words[8],
        tail: words[9],
        next: words[10],
        heldnext: words[11],
    }
}

pub fn simple(words: &[u32; 22]) -> Simple
    ensures { result ≡ simple_from words.now }
{
    Simple {
        sa: words[12],
        da: words[13],
        btt: words[14],
    }
}

pub fn transfer(words: &[u32; 22]) -> Transfer
    ensures { result ≡ transfer_from words.now }
{
    Transfer {
        source: words[16],
        destination: words[17],
        total: words[18],
        moved: words[19],
    }
}

// The engine that the words spell, whether or not an engine has such words.
pub fn engine_from(words: &[u32; 22]) -> Engine
    ensures { result ≡ engine_from words.now }
{
    let transfer = transfer(words);
    Engine {
        settings: settings(words),
        control: control(words),
        status: status(words),
        pointers: pointers(words),
        simple: simple(words),
        phase: phase(words[15], transfer),
    }
}
