// RULES.md, "Bus clocks": the fields of one clock, and their ranges.
ghost use Rattle.std.specs.Prelude.{◌≡◌};
ghost use Rattle.monitor.specs.Clock.{in_range};

// `aresetn` is RULES.md's reset-high: ARESETn is high, the clock is out of reset.
#[derive(Clone, Copy)]
pub struct Clock {
    pub address: u32,
    pub length: u32,
    pub size: u32,
    pub burst: u32,
    pub cache: u32,
    pub prot: u32,
    pub qos: u32,
    pub region: u32,
    pub id: u32,
    pub aresetn: bool,
    pub valid: bool,
    pub ready: bool,
}

impl Clock {
    // Whether no field asks for answer 13; address and id take any number. One sum is one test: a field above its range
    // adds to it, and no field takes away.
    pub fn in_range(self) -> bool
        ensures { result ≡ in_range self }
    {
        let beyond = self.length / 256
            + self.size / 8
            + self.burst / 4
            + self.cache / 16
            + self.prot / 8
            + self.qos / 16
            + self.region / 16;
        beyond == 0
    }
}
