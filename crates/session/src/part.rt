// A part of a trace: `base` is the place of its first byte in the whole trace, and `ended` says that the trace ends with it.
ghost use Rattle.std.specs.Prelude.{◌+◌, ◌<◌, ◌^◌, length};

// The place of each of its bytes, and the one past its end, fits in 64 bits.
#[derive(Clone, Copy)]
pub struct Part<'a> {
    pub base: u64,
    pub input: &'a [u8],
    pub ended: bool,
    pub ghost bounded: { base + length input.now < 2 ^ 64 },
}
