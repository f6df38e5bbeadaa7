// include/belikumba.h, "Plan": the plan of a transfer over lent bytes, and its number of bursts.
ghost use Rattle.std.specs.Prelude.{◌≡◌};
ghost use Rattle.plan.specs.Plan.{plan_bytes_of, counted_of, measured};
ghost use Rattle.interface.specs.Planning.{planned_seen, counted_seen};

use kit::answer::Refusal;
use plan::plan_bytes;

// What C is handed: an answer's number, and the number of bursts, 0 beside a refusal.
#[repr(C)]
#[derive(Clone, Copy)]
pub struct PlannedForC {
    pub answer: u32,
    pub bursts: u32,
}

fn planned_for_c(planned: Result<u32, Refusal>) -> PlannedForC
    ensures { counted_seen result ≡ measured planned }
{
    match planned {
        Ok(bursts) => PlannedForC { answer: 0, bursts },
        Err(refusal) => PlannedForC {
            answer: refusal.number(),
            bursts: 0,
        },
    }
}

pub fn belikumba_plan(
    width: u32,
    beats: u32,
    start: u32,
    count: u32,
    places: &mut [u8],
) -> PlannedForC
    ensures { planned_seen result places.new ≡ plan_bytes_of width beats start count places.old }
{
    planned_for_c(plan_bytes(width, beats, start, count, places))
}

pub fn belikumba_count(width: u32, beats: u32, start: u32, count: u32) -> PlannedForC
    ensures { counted_seen result ≡ counted_of width beats start count }
{
    planned_for_c(plan::count(width, beats, start, count))
}
