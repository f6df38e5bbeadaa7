// The lowest byte of a group that gives an answer, by the ends of the group and of the windows: no work grows with the bytes.
ghost use Rattle.std.specs.Prelude.{◌≡◌, ◌≤◌, List};
ghost use Rattle.kit.specs.Limits.{most_memory};
ghost use Rattle.memory.specs.declared.window.Window.{Window};
ghost use Rattle.memory.specs.Windows.{windows_of};
ghost use Rattle.memory.specs.declared.verdict.Verdict.TheVariants.{Slave, Decode};
ghost use Rattle.places.specs.Places.{lowest_in};

use memory::good::good_bytes;
use memory::verdict::Verdict;

// The lowest of the `bytes` bytes from `start` on that is at or past the memory's end, whatever the windows.
fn first_past(size: usize, start: u32, bytes: u32) -> Option<u32>
    requires { size ≤ most_memory }
    ensures { (windows : List Window) → result ≡ lowest_in size windows Decode start bytes }
{
    if bytes == 0 {
        return None;
    }
    if size as u64 >= start as u64 + bytes as u64 {
        return None;
    }
    Some(start.max(size as u32))
}

// The lowest of them that is in the memory and in a window: the first that does not answer OKAY, unless that is past the end.
fn first_sick(size: usize, windows: &[u32], start: u32, bytes: u32) -> Option<u32>
    requires { size ≤ most_memory }
    ensures { result ≡ lowest_in size (windows_of windows.now) Slave start bytes }
{
    let good = good_bytes(size, windows, start as u64);
    if good >= bytes as u64 {
        return None;
    }
    let at = start as u64 + good;
    if at >= size as u64 {
        return None;
    }
    Some(at as u32)
}

// The lowest of them that gives `verdict`; OKAY has no place.
pub fn lowest(size: usize, windows: &[u32], verdict: Verdict, start: u32, bytes: u32) -> Option<u32>
    requires { size ≤ most_memory }
    ensures { result ≡ lowest_in size (windows_of windows.now) verdict start bytes }
{
    match verdict {
        Verdict::Okay => None,
        Verdict::Slave => first_sick(size, windows, start, bytes),
        Verdict::Decode => first_past(size, start, bytes),
    }
}
