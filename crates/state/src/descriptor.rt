// RULES.md, "Descriptor and steps": a descriptor's layout, and where a transfer starts.
ghost use Rattle.std.specs.Prelude.{◌≡◌, ◌+◌, ◌≤◌, ◌<◌, length};
ghost use Rattle.state.specs.Bits.{pointer as pointer_of};
ghost use Rattle.state.specs.Descriptor.{descriptor_bytes, count_of, descriptor_at, suits as suits_of, start_of};

use crate::bits::bit;
use crate::engine::{Control, Transfer};
use kit::word::load;

// A descriptor's bytes; it lies at a multiple of ALIGNMENT.
pub const BYTES: usize = 32;

pub const ALIGNMENT: u32 = 64;

// Where its words lie.
pub const NEXT: usize = 0x00;

pub const SOURCE: usize = 0x08;

pub const DESTINATION: usize = 0x10;

pub const CONTROL: usize = 0x18;

pub const STATUS: usize = 0x1c;

// The status bit of a descriptor that is done.
pub const COMPLETE: u32 = 31;

// What a descriptor says: `stale` if its status says that it is done.
#[derive(Clone, Copy)]
pub struct Descriptor {
    pub next: u32,
    pub source: u32,
    pub destination: u32,
    pub count: u32,
    pub stale: bool,
}

// The pointer in a value: its low six bits are dropped.
pub fn pointer(value: u32) -> u32
    ensures { result ≡ pointer_of value }
{
    value / ALIGNMENT * ALIGNMENT
}

// The byte count in a value: BTT is its low 23 bits.
pub fn count(value: u32) -> u32
    ensures { result ≡ count_of value }
{
    value % 0x00800000
}

// The descriptor whose first byte lies at `at`.
pub fn load_descriptor(memory: &[u8], at: usize) -> Descriptor
    requires { at + descriptor_bytes ≤ length memory.now }
    ensures { result ≡ descriptor_at memory.now at }
{
    Descriptor {
        next: pointer(load(memory, at + NEXT)),
        source: load(memory, at + SOURCE),
        destination: load(memory, at + DESTINATION),
        count: count(load(memory, at + CONTROL)),
        stale: bit(load(memory, at + STATUS), COMPLETE),
    }
}

// A fixed side's start and the count are multiples of the width; a side that increments may lie anywhere.
fn suits(fixed: bool, width: u32, start: u32, count: u32) -> bool
    requires { 0 < width }
    ensures { result ≡ suits_of fixed width start count }
{
    !fixed || ((start % width == 0) & (count % width == 0))
}

// A transfer at its start, by a fetch or a BTT write. A count of 0 is an internal error, and so is a fixed side off the
// multiples of the width: nothing starts.
pub fn start_transfer(
    width: u32,
    control: Control,
    source: u32,
    destination: u32,
    count: u32,
) -> Option<Transfer>
    requires { 0 < width }
    ensures { result ≡ start_of width control source destination count }
{
    if count == 0 {
        return None;
    }
    if !suits(control.keyholeread, width, source, count) {
        return None;
    }
    if !suits(control.keyholewrite, width, destination, count) {
        return None;
    }
    Some(Transfer {
        source,
        destination,
        total: count,
        moved: 0,
    })
}
