// include/belikumba.h, "Engine": one step and a run of steps, over an engine's words.
ghost use Rattle.std.specs.Prelude.{◌≡◌};
ghost use Rattle.kit.specs.Answer.{answer_number};
ghost use Rattle.runs.specs.Run.{refusal_of};
ghost use Rattle.words.specs.EngineWords.{engine_of};
ghost use Rattle.interface.specs.Calls.{step_report_of, walk_words_of, walk_words_seen, step_words_of, step_words_seen, run_words_of, run_words_seen};

use crate::moving::move_on_words;
use kit::answer::{Answer, Refusal};
use kit::limits::{MOST_MEMORY, MOST_WINDOWS};
use kit::settings::legal;
use runs::walk::walk;
use spelling::sound;
use steps::event::Event;
use steps::report::report_of;
use words::engine_words::{engine_from, settings, store_stepped};

// What C is handed: an answer's number, the event's number and its two numbers, all 0 beside a refusal.
#[repr(C)]
#[derive(Clone, Copy)]
pub struct SteppedForC {
    pub answer: u32,
    pub event: u32,
    pub first: u32,
    pub second: u32,
}

// What C is handed: an answer's number, and the steps taken, 0 beside a refusal.
#[repr(C)]
#[derive(Clone, Copy)]
pub struct RanForC {
    pub answer: u32,
    pub steps: u32,
}

// A step's answer, and what is told of its event.
fn step_report(answer: u32, event: Event) -> SteppedForC
    ensures { result ≡ step_report_of answer event }
{
    let report = report_of(event);
    SteppedForC {
        answer,
        event: report.number,
        first: report.first,
        second: report.second,
    }
}

// Some steps over the words: the last event, and how many there were.
#[derive(Clone, Copy)]
pub struct WalkedWords {
    pub event: Event,
    pub steps: u32,
}

// The first answer that fits, in the order 1, 2, 6, 9, or done. It is runs' `refusal` of the words as they stand: an engine
// made of them first would cost as much as a step.
fn judge_words(words: &[u32; 22], size: usize, windows: usize) -> Answer
    ensures { answer_number result ≡ refusal_of (engine_of words.now) size windows }
{
    if !legal(settings(words)) {
        return Err(Refusal::Settings);
    }
    if size > MOST_MEMORY {
        return Err(Refusal::MemorySize);
    }
    if windows > MOST_WINDOWS {
        return Err(Refusal::WindowCount);
    }
    if !sound(words) {
        return Err(Refusal::State);
    }
    Ok(())
}

// Up to `most` steps of the engine that the words hold: the one place from which the engine is read, walks and is stored.
fn walk_words(
    words: &mut [u32; 22],
    memory: &mut [u8],
    windows: &[u32],
    most: u32,
) -> Result<WalkedWords, Refusal>
    ensures { walk_words_seen result words.new memory.new ≡ walk_words_of most words.old memory.old windows.now }
{
    judge_words(words, memory.len(), windows.len() / 2)?;
    let walked = walk(engine_from(words), memory, windows, most);
    store_stepped(walked.engine, words);
    Ok(WalkedWords {
        event: walked.event,
        steps: walked.steps,
    })
}

// Any step, as a walk of one.
fn whole_step(words: &mut [u32; 22], memory: &mut [u8], windows: &[u32]) -> SteppedForC
    ensures { step_words_seen result words.new memory.new ≡ step_words_of words.old memory.old windows.now }
{
    match walk_words(words, memory, windows, 1) {
        Ok(walked) => step_report(0, walked.event),
        Err(refusal) => step_report(refusal.number(), Event::None),
    }
}

pub fn belikumba_step(words: &mut [u32; 22], memory: &mut [u8], windows: &[u32]) -> SteppedForC
    ensures { step_words_seen result words.new memory.new ≡ step_words_of words.old memory.old windows.now }
{
    match move_on_words(words, memory, windows) {
        Some(burst) => step_report(0, Event::Move(burst)),
        None => whole_step(words, memory, windows),
    }
}

pub fn belikumba_run(
    words: &mut [u32; 22],
    memory: &mut [u8],
    windows: &[u32],
    most: u16,
) -> RanForC
    ensures { run_words_seen result words.new memory.new ≡ run_words_of most words.old memory.old windows.now }
{
    match walk_words(words, memory, windows, u32::from(most)) {
        Ok(walked) => RanForC {
            answer: 0,
            steps: walked.steps,
        },
        Err(refusal) => RanForC {
            answer: refusal.number(),
            steps: 0,
        },
    }
}
