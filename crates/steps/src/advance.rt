// One step of a well-formed engine, by its phase.
ghost use Rattle.std.specs.Prelude.{◌≡◌, true, ◌≤◌, length};
ghost use Rattle.kit.specs.Limits.{most_memory};
ghost use Rattle.kit.specs.Settings.{legal_of};
ghost use Rattle.memory.specs.Windows.{windows_of};
ghost use Rattle.state.specs.State.{well_formed_of};
ghost use Rattle.steps.specs.Step.{advance_seen, advance_of};

use crate::event::{Advanced, Event};
use crate::fetch::fetch;
use crate::move_burst::move_burst;
use crate::update::update;
use state::engine::{Engine, Phase};

#[tactic(auto, unfolding(crate::specs::Step::advance_of))]
pub fn advance(engine: Engine, memory: &mut [u8], windows: &[u32]) -> Advanced
    requires settings_value { legal_of engine.settings ≡ true }
    requires engine_value { well_formed_of engine ≡ true }
    requires memory_len_bound { length memory.old ≤ most_memory }
    ensures { advance_seen result memory.new ≡ advance_of engine memory.old (windows_of windows.now) }
{
    match engine.phase {
        Phase::Idle => Advanced {
            event: Event::None,
            engine,
        },
        Phase::Fetch => fetch(engine, memory, windows),
        Phase::Move(transfer) => move_burst(engine, transfer, memory, windows),
        Phase::Update(outcome) => update(engine, outcome, memory, windows),
    }
}
