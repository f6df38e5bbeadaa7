// include/belikumba.h, "Engine": register reads and writes and the interrupt line, over an engine's words.
ghost use Rattle.std.specs.Prelude.{◌≡◌};
ghost use Rattle.reads.specs.Read.{read_seen};
ghost use Rattle.words.specs.EngineWords.{engine_of};
ghost use Rattle.interface.specs.Calls.{value_seen, read_words_of, write_words_of, words_seen, line_of, line_words_of};

use kit::answer::Refusal;
use reads::read::read;
use registers::write::write;
use spelling::load;
use state::engine::{acceptable, interrupt_line};
use words::engine_words::store;

// What C is handed: an answer's number, and the value beside it, 0 beside a refusal.
#[repr(C)]
#[derive(Clone, Copy)]
pub struct ValueForC {
    pub answer: u32,
    pub value: u32,
}

fn value_for_c(value: Result<u32, Refusal>) -> ValueForC
    ensures { value_seen result ≡ read_seen value }
{
    match value {
        Ok(value) => ValueForC { answer: 0, value },
        Err(refusal) => ValueForC {
            answer: refusal.number(),
            value: 0,
        },
    }
}

pub fn belikumba_read(words: &[u32; 22], offset: u32) -> ValueForC
    ensures { value_seen result ≡ read_words_of words.now offset }
{
    value_for_c(read(load(words), offset))
}

pub fn belikumba_write(words: &mut [u32; 22], offset: u32, value: u32) -> u32
    ensures { words_seen result words.new ≡ write_words_of words.old offset value }
{
    match write(load(words), offset, value) {
        Ok(engine) => {
            store(engine, words);
            0
        }
        Err(refusal) => refusal.number(),
    }
}

// 1 if the line is high.
fn line(words: &[u32; 22]) -> Result<u32, Refusal>
    ensures { read_seen result ≡ line_of (engine_of words.now) }
{
    let engine = load(words);
    acceptable(engine)?;
    Ok(u32::from(interrupt_line(engine)))
}

pub fn belikumba_interrupt_line(words: &[u32; 22]) -> ValueForC
    ensures { value_seen result ≡ line_words_of words.now }
{
    value_for_c(line(words))
}
