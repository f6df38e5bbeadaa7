// One step and a run of steps over lent windows: any state, any memory, any windows.
ghost use Rattle.std.specs.Prelude.{◌≡◌};
ghost use Rattle.runs.specs.Run.{step_of, step_seen, run_of, run_seen};
ghost use Rattle.windows.specs.Flat.{flat_of};

use crate::table::table_of;
use kit::answer::Refusal;
use memory::window::Window;
use runs::run::Ran;
use state::engine::Engine;
use steps::event::Advanced;

// The windows are copied once, as numbers, so that the step and its proof stay those of `steps`.
pub fn step(engine: Engine, memory: &mut [u8], windows: &[Window]) -> Result<Advanced, Refusal>
    ensures { step_seen engine result memory.new ≡ step_of engine memory.old (flat_of windows.now) }
{
    let table = table_of(windows);
    runs::run::step(engine, memory, table.numbers())
}

// A run of up to `most` steps.
pub fn run(engine: Engine, memory: &mut [u8], windows: &[Window], most: u16) -> Result<Ran, Refusal>
    ensures { run_seen engine result memory.new ≡ run_of most engine memory.old (flat_of windows.now) }
{
    let table = table_of(windows);
    runs::run::run(engine, memory, table.numbers(), most)
}
