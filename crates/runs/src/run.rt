// One step and a run of steps, as a caller asks for them: any state, any memory, any windows.
ghost use Rattle.std.specs.Prelude.{◌≡◌};
ghost use Rattle.kit.specs.Answer.{answer_number};
ghost use Rattle.runs.specs.Run.{refusal_of, step_of, step_seen, run_of, run_seen};

use crate::walk::walk;
use kit::answer::{Answer, Refusal};
use kit::limits::{MOST_MEMORY, MOST_WINDOWS};
use kit::settings::legal;
use state::engine::{Engine, well_formed};
use steps::event::Advanced;

// The steps that a run took, and the state after them.
#[derive(Clone, Copy)]
pub struct Ran {
    pub steps: u32,
    pub engine: Engine,
}

// The first refusal that fits, in the order 1, 2, 6, 9, or none.
#[tactic(auto, unfolding(crate::specs::Run::refusal_of))]
pub fn refusal(engine: Engine, size: usize, windows: usize) -> Answer
    ensures { answer_number result ≡ refusal_of engine size windows }
{
    if !legal(engine.settings) {
        return Err(Refusal::Settings);
    }
    if size > MOST_MEMORY {
        return Err(Refusal::MemorySize);
    }
    if windows > MOST_WINDOWS {
        return Err(Refusal::WindowCount);
    }
    if !well_formed(engine) {
        return Err(Refusal::State);
    }
    Ok(())
}

// A step's event, and the state after it.
#[tactic(auto, unfolding(crate::specs::Run::step_of, crate::specs::Run::refusal_of))]
pub fn step(engine: Engine, memory: &mut [u8], windows: &[u32]) -> Result<Advanced, Refusal>
    ensures { step_seen engine result memory.new ≡ step_of engine memory.old windows.now }
{
    refusal(engine, memory.len(), windows.len() / 2)?;
    let walked = walk(engine, memory, windows, 1);
    Ok(Advanced {
        event: walked.event,
        engine: walked.engine,
    })
}

// A run of up to `most` steps; its refusals are judged once, at its start.
#[tactic(auto, unfolding(crate::specs::Run::run_of, crate::specs::Run::refusal_of))]
pub fn run(engine: Engine, memory: &mut [u8], windows: &[u32], most: u16) -> Result<Ran, Refusal>
    ensures { run_seen engine result memory.new ≡ run_of most engine memory.old windows.now }
{
    refusal(engine, memory.len(), windows.len() / 2)?;
    let walked = walk(engine, memory, windows, most as u32);
    Ok(Ran {
        steps: walked.steps,
        engine: walked.engine,
    })
}
