// The word of a fixed side. Bytes of a transfer, no more than a word, lie in it in two parts: up to the word's end, and
// from its front on.
ghost use Rattle.std.specs.Prelude.{◌≡◌, true, ◌+◌, ◌≤◌, ◌<◌, length, take, drop};
ghost use Rattle.std.proofs.lemmas.List.Edits.{sets};
ghost use Rattle.sides.specs.Sides.{place_of, Inside, side_read, side_written};

// No word is wider.
pub const LONGEST_WORD: usize = 128;

// Copies `count` bytes of `source` from `at` on to `target` from `to` on.
pub fn copy_part(source: &[u8], at: usize, count: usize, target: &mut [u8], to: usize)
    requires { (at + count ≤ length source.now) × (to + count ≤ length target.old) }
    ensures { target.new ≡ sets target.old to (take count (drop at source.now)) }
{
    let at_end = at + count;
    let to_end = to + count;
    target[to..to_end].copy_from_slice(&source[at..at_end]);
}

// Reads `count` bytes from the transfer's byte `from` on, of a side fixed at `start`, to the front of `held`.
pub fn read_word(
    memory: &[u8],
    width: usize,
    start: usize,
    from: usize,
    count: usize,
    held: &mut [u8],
)
    requires width_nonzero { (0 < width) × (width ≤ 128) × (0 < count) × (count ≤ width) × (count ≤ length held.old) }
    requires inside { Inside (length memory.now) (place_of true width start) from count }
    ensures { take count held.new ≡ side_read memory.now (place_of true width start) from count }
{
    let offset = from % width;
    let first = count.min(width - offset);
    copy_part(memory, start + offset, first, held, 0);
    copy_part(memory, start, count - first, held, first);
}

// Writes the first `count` bytes of `held` to those places.
pub fn write_word(
    memory: &mut [u8],
    width: usize,
    start: usize,
    from: usize,
    count: usize,
    held: &[u8],
)
    requires width_nonzero { (0 < width) × (width ≤ 128) × (0 < count) × (count ≤ width) × (count ≤ length held.now) }
    requires inside { Inside (length memory.old) (place_of true width start) from count }
    ensures { memory.new ≡ side_written memory.old (place_of true width start) from (take count held.now) }
{
    let offset = from % width;
    let first = count.min(width - offset);
    copy_part(held, 0, first, memory, start + offset);
    copy_part(held, first, count - first, memory, start);
}
