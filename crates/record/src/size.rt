// RULES.md, "Trace and listing": the bytes of each kind of record, mark and sequence number included; an engine number is
// one byte more.
pub const HEADER: usize = 6;

// C2 too.
pub const CF: usize = 10;
// Without its data.
pub const MM: usize = 12;

pub const SW: usize = 14;

pub const WR: usize = 12;

pub const RD: usize = 8;

pub const ST: usize = 8;

pub const AR: usize = 22;
