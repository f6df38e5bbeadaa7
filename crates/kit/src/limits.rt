// The limits of RULES.md.

// The most bytes of one transfer: what 23 bits can say.
pub const MOST_BYTES: u32 = 8388607;
// One past the last address.
pub const ADDRESS_END: u64 = 4294967296;
// The most bytes of memory, and the most sick windows.
pub const MOST_MEMORY: usize = 16777216;

pub const MOST_WINDOWS: usize = 16;
