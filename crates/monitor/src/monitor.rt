// RULES.md, "Bus clocks": the monitor takes one clock and hands back its next self.
ghost use Rattle.std.specs.Prelude.{◌≡◌};
ghost use Rattle.monitor.specs.Monitor.{fresh_of, flags_of, snapshot_of, clock_of, count_of, lowest_of, seen, bus_clock_of};

use crate::burst::Burst;
use crate::clock::Clock;
use crate::flags;
use kit::answer::Refusal;
use kit::settings;

// Flag n is bit n of `flags`; `before` is the clock before.
#[derive(Clone, Copy)]
pub struct Monitor {
    pub flags: u64,
    pub snapshot: u64,
    pub before: Clock,
}

// What a bus clock hands back: how many flags are up, and the monitor's next self.
#[derive(Clone, Copy)]
pub struct Clocked {
    pub count: u32,
    pub monitor: Monitor,
}

impl Monitor {
    // No flag, and as if the clock before was in reset.
    pub fn fresh() -> Monitor
        ensures { result ≡ fresh_of }
    {
        let before = Clock {
            aresetn: false,
            valid: false,
            ready: false,
            address: 0,
            length: 0,
            size: 0,
            burst: 0,
            cache: 0,
            prot: 0,
            qos: 0,
            region: 0,
            id: 0,
        };
        Monitor {
            flags: 0,
            snapshot: 0,
            before,
        }
    }

    // A clock in reset clears all flags; out of reset they stay set.
    #[tactic(auto, unfolding(crate::specs::Monitor::flags_of))]
    fn flags_after(self, width: u32, burst: Burst) -> u64
        ensures { result ≡ flags_of self width burst.clock }
    {
        if !burst.clock.aresetn {
            return 0;
        }
        let before = self.before;
        let raised = flags::valid_flags(self.flags, width, before, burst);
        flags::held_flags(raised, before, burst.clock)
    }

    // The flags of a clock that takes them from none to any.
    #[tactic(auto, unfolding(crate::specs::Monitor::snapshot_of))]
    fn snapshot_after(self, flags: u64, clock: Clock) -> u64
        ensures { result ≡ snapshot_of self flags clock }
    {
        if !clock.aresetn {
            return 0;
        }
        if (self.flags == 0) & (flags != 0) {
            return flags;
        }
        self.snapshot
    }

    fn clock(mut self, width: u32, burst: Burst) -> Monitor
        ensures { result ≡ clock_of self width burst.clock }
    {
        let flags = self.flags_after(width, burst);
        let snapshot = self.snapshot_after(flags, burst.clock);
        self.flags = flags;
        self.snapshot = snapshot;
        self.before = burst.clock;
        self
    }

    // How many flags are up.
    pub fn count(self) -> u32
        ensures { result ≡ count_of self }
    {
        self.flags.count_ones()
    }

    // The number of the lowest flag that is up, 0 where there is none.
    pub fn lowest(self) -> u32
        ensures { result ≡ lowest_of self }
    {
        if self.flags == 0 {
            return 0;
        }
        self.flags.trailing_zeros()
    }
}

// One bus clock, or answer 1 or 13; a refused clock is no clock: the monitor stays as it was.
pub fn bus_clock(monitor: Monitor, width: u32, beats: u32, clock: Clock) -> Result<Clocked, Refusal>
    ensures { seen monitor result ≡ bus_clock_of monitor width beats clock }
{
    if !settings::legal(settings::Settings { width, beats }) {
        return Err(Refusal::Settings);
    }
    if !clock.in_range() {
        return Err(Refusal::Clock);
    }
    let next = monitor.clock(width, Burst { clock });
    let count = next.count();
    Ok(Clocked {
        count,
        monitor: next,
    })
}
