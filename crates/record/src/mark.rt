// RULES.md, "Trace and listing": the two letters of each mark, the first in the lower byte.
pub const CF: u16 = 0x4643;

pub const C2: u16 = 0x3243;

pub const MM: u16 = 0x4D4D;

pub const SW: u16 = 0x5753;

pub const WR: u16 = 0x5257;

pub const RD: u16 = 0x4452;

pub const ST: u16 = 0x5453;

pub const AR: u16 = 0x5241;
