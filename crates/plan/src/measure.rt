// Whether a transfer can be planned, and its number of bursts.
ghost use Rattle.std.specs.Prelude.{◌≡◌};
ghost use Rattle.plan.specs.Plan.{out_of_range, measure_of, measured};

use crate::layout::count_bursts;
use kit::answer::Refusal;
use kit::limits::{ADDRESS_END, MOST_BYTES};
use kit::settings::{Settings, legal};

// A plan of 0 or too many bytes, or one that leaves the addresses.
fn out_of_range(start: u32, count: u32) -> bool
    ensures { result ≡ out_of_range start count }
{
    count == 0 || count > MOST_BYTES || count as u64 > ADDRESS_END - start as u64
}

// Refusals in their order, 1, 7 and 8, else the number of bursts.
#[tactic(auto, unfolding(crate::specs::Plan::measure_of))]
pub fn measure(width: u32, beats: u32, start: u32, count: u32, room: usize) -> Result<u32, Refusal>
    ensures { measured result ≡ measure_of width beats start count room }
{
    if !legal(Settings { width, beats }) {
        return Err(Refusal::Settings);
    }
    if out_of_range(start, count) {
        return Err(Refusal::PlanRange);
    }
    let bursts = count_bursts(width, beats, start, count);
    if room < 2 * bursts as usize {
        return Err(Refusal::PlanRoom);
    }
    Ok(bursts)
}
