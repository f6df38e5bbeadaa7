// RULES.md, "Descriptor and steps", move: all source bytes of a burst are read before any is written.
ghost use Rattle.std.specs.Prelude.{◌≡◌, ◌+◌, ◌≤◌, length};
ghost use Rattle.memory.specs.Burst.{longest_burst, copied};

// No burst is longer: a legal one stays in one page of 4,096 bytes.
const LONGEST_BURST: usize = 4096;

// Copies `count` bytes from `from` on to `to` on; the two parts may overlap. The bytes go through `held`, with nothing
// between the two copies, so that the compiler makes one move of both; of std's `copy_within` it makes a loop a direction.
pub fn copy(memory: &mut [u8], from: usize, to: usize, count: usize)
    requires { (from + count ≤ length memory.old) × (to + count ≤ length memory.old) × (count ≤ longest_burst) }
    ensures { memory.new ≡ copied memory.old from to count }
{
    let mut held = [0u8; LONGEST_BURST];
    let from_end = from + count;
    let to_end = to + count;
    held[..count].copy_from_slice(&memory[from..from_end]);
    memory[to..to_end].copy_from_slice(&held[..count]);
}
