// RULES.md, "Trace and listing": a record, and what reading one gives.
use monitor::clock::Clock;

// One case a mark: CF and C2 (of two engines), MM, SW, WR, RD, ST, AR; a WR, RD or ST for an engine that is not there is
// astray, which is a record with an answer of its own, 21, and not the lack of one. MM's bytes stay in the input, from the
// mark's place + 12 up to the next.
#[derive(Clone, Copy)]
pub enum Body {
    Settings { two: bool, width: u32, beats: u32 },
    Memory { address: u32, length: u32 },
    Window { start: u32, length: u32 },
    Write { offset: u32, value: u32 },
    Read { offset: u32 },
    Steps { count: u32 },
    Astray,
    Clock { bits: u32, clock: Clock },
}

#[derive(Clone, Copy)]
pub struct Record {
    pub sequence: u32,
    pub body: Body,
}

// The record and the place after it; none is answer 10.
pub type Reading = Option<(Record, usize)>;
