// RULES.md, "Bus clocks", and PG101's status bits: the table of flags, a line each. 40 and 51 have no check.
ghost use Rattle.std.specs.Prelude.{◌≡◌};
ghost use Rattle.kit.specs.Choice.{when};
ghost use Rattle.monitor.specs.Flags.{valid_flags, held_flags};

use crate::burst::Burst;
use crate::clock::Clock;
use crate::rules;

// A line of the table: the word with the flag, or without. Chosen, and not joined by a shifted test: of those the
// compiler makes comparisons of four fields at once, and they wait until the clock before is stored.
fn choose(broken: bool, raised: u64, kept: u64) -> u64
    ensures { result ≡ when broken raised kept }
{
    if broken { raised } else { kept }
}

// What an address on the bus breaks by itself.
#[tactic(auto, unfolding(crate::specs::Flags::valid_flags))]
pub fn valid_flags(flags: u64, width: u32, before: Clock, burst: Burst) -> u64
    ensures { result ≡ valid_flags flags width before burst.clock }
{
    let clock = burst.clock;
    let raised = choose(rules::page_crossed(burst), 1u64 << 37, 0);
    let raised = choose(rules::wrap_unaligned(burst), raised | 1u64 << 38, raised);
    let raised = choose(clock.burst == 3, raised | 1u64 << 39, raised);
    let raised = choose(rules::cache_wrong(clock), raised | 1u64 << 41, raised);
    let raised = choose(rules::fixed_long(burst), raised | 1u64 << 42, raised);
    let raised = choose(rules::wrap_beats(burst), raised | 1u64 << 43, raised);
    let raised = choose(rules::size_above(width, burst), raised | 1u64 << 44, raised);
    let raised = choose(!before.aresetn, raised | 1u64 << 45, raised);
    if !clock.valid {
        return flags;
    }
    flags | raised
}

// What has to stay as it was while an address waits for its ready.
#[tactic(auto, unfolding(crate::specs::Flags::held_flags))]
pub fn held_flags(flags: u64, before: Clock, clock: Clock) -> u64
    ensures { result ≡ held_flags flags before clock }
{
    let raised = choose(clock.address != before.address, 1u64 << 46, 0);
    let raised = choose(clock.burst != before.burst, raised | 1u64 << 47, raised);
    let raised = choose(clock.cache != before.cache, raised | 1u64 << 48, raised);
    let raised = choose(clock.id != before.id, raised | 1u64 << 49, raised);
    let raised = choose(clock.length != before.length, raised | 1u64 << 50, raised);
    let raised = choose(clock.prot != before.prot, raised | 1u64 << 52, raised);
    let raised = choose(clock.size != before.size, raised | 1u64 << 53, raised);
    let raised = choose(clock.qos != before.qos, raised | 1u64 << 54, raised);
    let raised = choose(clock.region != before.region, raised | 1u64 << 55, raised);
    let raised = choose(!clock.valid, raised | 1u64 << 56, raised);
    if !(before.aresetn & before.valid & !before.ready) {
        return flags;
    }
    flags | raised
}
