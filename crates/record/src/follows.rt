// Whether a whole record of one kind follows, in sequence: loops over records of one kind ask this, and leave all else to `read`.
ghost use Rattle.std.specs.Prelude.{◌≡◌, ◌≤◌, length};
ghost use Rattle.record.specs.Follows.{follows_of};

use kit::word;

// The record at `at` has this mark, is whole with `size` bytes, and its sequence number is above `before`.
pub fn follows(input: &[u8], at: usize, mark: u16, size: usize, before: u32) -> bool
    requires { (at ≤ length input.now) × (6 ≤ size) }
    ensures { result ≡ follows_of input.now at mark size before }
{
    size <= input.len() - at
        && word::load_half(input, at) == mark
        && before < word::load(input, at + 2)
}
