// RULES.md, "Bus clocks": the tests of flags 37 to 44 that are more than one comparison.
ghost use Rattle.std.specs.Prelude.{◌≡◌};
ghost use Rattle.monitor.specs.Rules.{page_crossed, wrap_unaligned, cache_wrong, fixed_long, wrap_count, wrap_beats, size_above};

use crate::burst::Burst;
use crate::clock::Clock;

const PAGE: u64 = 4096;

pub fn page_crossed(burst: Burst) -> bool
    ensures { result ≡ page_crossed burst.clock }
{
    (burst.clock.burst == 1) & (burst.last_byte() / PAGE != burst.clock.address as u64 / PAGE)
}

// An address is a multiple of 2^size where rounding down leaves it.
pub fn wrap_unaligned(burst: Burst) -> bool
    ensures { result ≡ wrap_unaligned burst.clock }
{
    (burst.clock.burst == 2) & (burst.rounded() != burst.clock.address as u64)
}

pub fn cache_wrong(clock: Clock) -> bool
    ensures { result ≡ cache_wrong clock }
{
    (clock.cache / 2 % 2 == 0) & ((clock.cache / 4 % 2 == 1) | (clock.cache / 8 % 2 == 1))
}

pub fn fixed_long(burst: Burst) -> bool
    ensures { result ≡ fixed_long burst.clock }
{
    (burst.clock.burst == 0) & (16 < burst.beats())
}

fn wrap_count(beats: u32) -> bool
    ensures { result ≡ wrap_count beats }
{
    matches!(beats, 2 | 4 | 8 | 16)
}

pub fn wrap_beats(burst: Burst) -> bool
    ensures { result ≡ wrap_beats burst.clock }
{
    (burst.clock.burst == 2) & !wrap_count(burst.beats())
}

pub fn size_above(width: u32, burst: Burst) -> bool
    ensures { result ≡ size_above width burst.clock }
{
    width < 1u32 << burst.clock.size
}
