// Some steps of a well-formed engine, one after the other.
ghost use Rattle.std.specs.Prelude.{◌≡◌, true, ◌≤◌, ◌<◌, length, eqb, IfSome, IfNone};
ghost use Rattle.kit.specs.Choice.{when};
ghost use Rattle.kit.specs.Limits.{most_memory};
ghost use Rattle.kit.specs.Settings.{legal_of};
ghost use Rattle.memory.specs.Windows.{windows_of};
ghost use Rattle.state.specs.declared.engine.Phase.TheVariants.{Move};
ghost use Rattle.state.specs.State.{busy_of, well_formed_of};
ghost use Rattle.steps.specs.declared.event.Event.TheVariants.{None, Move as Moved};
ghost use Rattle.steps.specs.Step.{begun};
ghost use Rattle.moves.specs.Moves.{Reaches, Glides};
ghost use Rattle.runs.specs.Run.{walk_from, walk_seen, stands_at};

use cut::{Burst, span};
use fixed::glide_fixed;
use moves::glide::{Glided, glide};
use state::engine::{Control, Engine, Phase, Transfer, busy};
use state::moving::Moving;
use steps::advance::advance;
use steps::event::{Advanced, Event};
use steps::move_burst::continue_or_finish;

// The last event of some steps, their number, and the state after them.
#[derive(Clone, Copy)]
pub struct Walked {
    pub event: Event,
    pub steps: u32,
    pub engine: Engine,
}

// More bytes are to go than twice `beats` words have, so asking how far memory is good pays.
fn long(moving: Moving) -> bool {
    let settings = moving.settings;
    let transfer = moving.transfer;
    span(settings.width, settings.beats) < ((transfer.total - transfer.moved) / 2) as u64
}

// The event of the last of some bursts.
fn event_of(steps: u32, last: Burst) -> Event
    ensures { result ≡ when (eqb steps 0) None (Moved last) }
{
    if steps == 0 {
        Event::None
    } else {
        Event::Move(last)
    }
}

// As many bursts as are good, or none, whichever sides are fixed.
fn good_bursts(
    control: Control,
    moving: Moving,
    memory: &mut [u8],
    windows: &[u32],
    most: u32,
) -> Glided
    requires { length memory.old ≤ most_memory }
    ensures glides { Glides moving.settings control.keyholeread control.keyholewrite moving.transfer (windows_of windows.now) memory.old result memory.new }
    ensures steps_le_most { result.steps ≤ most }
{
    // Two calls of each, so that it stays a call: compiled into the loop of a run, `glide_fixed` would slow down all other
    // transfers, and the loop of `glide` would have no registers of its own.
    if control.keyholeread {
        return glide_fixed(control, moving, memory, windows, most);
    }
    if control.keyholewrite {
        return glide_fixed(control, moving, memory, windows, most);
    }
    if moving.transfer.moved == 0 {
        let whole = Moving {
            settings: moving.settings,
            transfer: Transfer {
                moved: 0,
                ..moving.transfer
            },
        };
        return glide(whole, memory, windows, most);
    }
    glide(moving, memory, windows, most)
}

// The engine after them.
fn glide_on(engine: Engine, moving: Moving, memory: &mut [u8], windows: &[u32], most: u32) -> Walked
    requires settings_value { engine.settings ≡ moving.settings }
    requires phase_value { engine.phase ≡ Move moving.transfer }
    requires memory_len_bound { length memory.old ≤ most_memory }
    ensures reaches { Reaches (windows_of windows.now) (begun engine memory.old) result.steps (stands_at result memory.new) }
    ensures steps_le_most { result.steps ≤ most }
{
    let glided = good_bursts(engine.control, moving, memory, windows, most);
    Walked {
        event: event_of(glided.steps, glided.last),
        steps: glided.steps,
        engine: continue_or_finish(engine, moving.transfer, glided.moved),
    }
}

// The good bursts of a long transfer, if there are any. What `glide_on` gives is handed on whole: taken apart here, more of the
// state goes by the stack once all of this is compiled into `walk`.
fn bursts_ahead(engine: Engine, memory: &mut [u8], windows: &[u32], most: u32) -> Option<Walked>
    requires settings_value { legal_of engine.settings ≡ true }
    requires memory_len_bound { length memory.old ≤ most_memory }
    requires engine_value { well_formed_of engine ≡ true }
    ensures same { IfNone result (memory.new ≡ memory.old) }
    ensures reaches { IfSome result (λ walked. Reaches (windows_of windows.now) (begun engine memory.old) walked.steps (stands_at walked memory.new)) }
    ensures steps_nonzero { IfSome result (λ walked. (0 < walked.steps) × (walked.steps ≤ most)) }
{
    let phase = engine.phase;
    if let Phase::Move(transfer) = phase {
        let moving = Moving {
            settings: engine.settings,
            transfer,
        };
        if long(moving) {
            let walked = glide_on(engine, moving, memory, windows, most);
            if 0 < walked.steps {
                return Some(walked);
            }
        }
    }
    None
}

// The bursts of a long transfer, or one step.
fn stride(engine: Engine, memory: &mut [u8], windows: &[u32], most: u32) -> Walked
    requires settings_value { legal_of engine.settings ≡ true }
    requires memory_len_bound { length memory.old ≤ most_memory }
    requires engine_value { well_formed_of engine ≡ true }
    requires phase_value { busy_of engine.phase ≡ true }
    requires most_nonzero { 0 < most }
    ensures reaches { Reaches (windows_of windows.now) (begun engine memory.old) result.steps (stands_at result memory.new) }
    ensures steps_nonzero { (0 < result.steps) × (result.steps ≤ most) }
{
    if let Some(walked) = bursts_ahead(engine, memory, windows, most) {
        return walked;
    }
    let advanced = advance(engine, memory, windows);
    let event = advanced.event;
    let engine = advanced.engine;
    Walked {
        event,
        steps: 1,
        engine,
    }
}

// Up to `most` steps, ended early where the engine is idle. A caller that has judged the refusals and calls this from one
// place has it compiled into that place, with no state handed over in memory.
pub fn walk(engine: Engine, memory: &mut [u8], windows: &[u32], most: u32) -> Walked
    requires settings_value { legal_of engine.settings ≡ true }
    requires memory_len_bound { length memory.old ≤ most_memory }
    requires engine_value { well_formed_of engine ≡ true }
    ensures { walk_seen result memory.new ≡ walk_from most 0 (begun engine memory.old) (windows_of windows.now) }
{
    // No step changes them: taken from here, they are not carried from step to step.
    let settings = engine.settings;
    let simple = engine.simple;
    let mut last = Advanced {
        event: Event::None,
        engine,
    };
    // A turn takes one step or many, and their number is told too, so the loop goes by it: a range counts turns.
    let mut steps: u32 = 0;
    while steps < most {
        let engine = last.engine;
        let phase = engine.phase;
        if !busy(phase) {
            break;
        }
        let walked = stride(engine, memory, windows, most - steps);
        let event = walked.event;
        let after = walked.engine;
        let engine = Engine {
            settings,
            simple,
            ..after
        };
        last = Advanced { event, engine };
        steps += walked.steps;
    }
    let event = last.event;
    let engine = last.engine;
    Walked {
        event,
        steps,
        engine,
    }
}
