// RULES.md, "Cutting a transfer": the bytes of the burst that starts at an address. Lengths only: no sum of addresses.
#![tactic(auto)]

ghost use Rattle.std.specs.Prelude.{◌≡◌, ◌-◌, ◌*◌, ◌%◌, ◌<◌};
ghost use Rattle.cut.specs.Cut.{bytes_within, burst_bytes};

// One burst: its first byte and its number of bytes.
#[derive(Clone, Copy)]
pub struct Burst {
    pub start: u32,
    pub bytes: u32,
}

// A burst never leaves the page of this many bytes that it starts in.
pub const PAGE: u64 = 4096;

// How far the byte at `at` is past the start of its aligned word. A division by the width would cost more than the rest
// of a step, so each legal width has its own constant one.
pub fn word_offset(width: u32, at: u64) -> u64
    requires { 0 < width }
    ensures { result ≡ at % width }
{
    match width {
        4 => at % 4,
        8 => at % 8,
        16 => at % 16,
        32 => at % 32,
        64 => at % 64,
        128 => at % 128,
        _ => at % (width as u64),
    }
}

// The bytes of the aligned words that a burst may touch.
pub fn span(width: u32, beats: u32) -> u64
    ensures { result ≡ width * beats }
{
    width as u64 * beats as u64
}

// How many of them are left from `at`, if its word is the first one.
pub fn words_left(width: u32, beats: u32, at: u64) -> u64
    requires width_nonzero { 0 < width }
    requires beats_nonzero { 0 < beats }
    ensures { result ≡ width * beats - at % width }
{
    span(width, beats) - word_offset(width, at)
}

// The least of: what is left of the page of `at`, `words` bytes, and what is left of the transfer. In this order the
// last two are compared while the first is being made.
pub fn bytes_within(words: u64, at: u64, left: u32) -> u32
    ensures { result ≡ bytes_within words at left }
{
    (PAGE - at % PAGE).min(words.min(left as u64)) as u32
}

// The bytes of the first burst of a transfer that has `left` bytes to go from `at`.
pub fn burst_bytes(width: u32, beats: u32, at: u64, left: u32) -> u32
    requires width_nonzero { 0 < width }
    requires beats_nonzero { 0 < beats }
    ensures { result ≡ burst_bytes width beats at left }
{
    bytes_within(words_left(width, beats, at), at, left)
}
