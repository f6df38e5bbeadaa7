// RULES.md, "Bus clocks": the burst that a clock asks for, its beats and the bytes that it reaches.
ghost use Rattle.std.specs.Prelude.{◌≡◌, ◌<◌};
ghost use Rattle.monitor.specs.Clock.{beats_of, rounded_of, last_byte_of};

use crate::clock::Clock;

// A clock whose size and length are in range: out of range, the shifts by the size have no meaning.
#[derive(Clone, Copy)]
pub struct Burst {
    pub clock: Clock,
    ghost in_range: { (clock.size < 8) × (clock.length < 256) },
}

impl Burst {
    pub fn beats(self) -> u32
        ensures { result ≡ beats_of self.clock }
    {
        self.clock.length + 1
    }

    // By shifts: a division by 2^size would cost more than all the other tests.
    pub fn rounded(self) -> u64
        ensures { result ≡ rounded_of self.clock }
    {
        (self.clock.address as u64) >> self.clock.size << self.clock.size
    }

    // In 64 bits, since a burst at the top of the addresses is reckoned without wrapping.
    pub fn last_byte(self) -> u64
        ensures { result ≡ last_byte_of self.clock }
    {
        self.rounded() + ((self.beats() as u64) << self.clock.size) - 1
    }
}
