// RULES.md, "Cutting a transfer": the plan of a transfer in a lent slice of numbers, or of bytes, and its number of bursts.
#![tactic(auto)]

mod fill;
mod layout;
pub mod measure;
mod place;

ghost use Rattle.std.specs.Prelude.{◌≡◌};
ghost use Rattle.plan.specs.Plan.{plan_of, plan_bytes_of, counted_of, seen, measured};

use fill::fill;
use kit::answer::Refusal;
use kit::limits::MOST_BYTES;
use measure::measure;

// Writes the transfer's bursts to `places`, start and byte count in turn, and gives their number.
pub fn plan(
    width: u32,
    beats: u32,
    start: u32,
    count: u32,
    places: &mut [u32],
) -> Result<u32, Refusal>
    ensures { seen result places.new ≡ plan_of width beats start count places.old }
{
    let bursts = measure(width, beats, start, count, places.len())?;
    fill(width, beats, start, count, places);
    Ok(bursts)
}

// The same plan over lent bytes, four of them a place, for a host program.
pub fn plan_bytes(
    width: u32,
    beats: u32,
    start: u32,
    count: u32,
    places: &mut [u8],
) -> Result<u32, Refusal>
    ensures { seen result places.new ≡ plan_bytes_of width beats start count places.old }
{
    let bursts = measure(width, beats, start, count, places.len() / 4)?;
    fill(width, beats, start, count, places);
    Ok(bursts)
}

// The number of bursts of a plan, without it, so a caller knows how many places to lend. Each burst has at least one byte, so
// with two places for each byte of the longest transfer no plan lacks room.
pub fn count(width: u32, beats: u32, start: u32, count: u32) -> Result<u32, Refusal>
    ensures { measured result ≡ counted_of width beats start count }
{
    measure(width, beats, start, count, 2 * MOST_BYTES as usize)
}
