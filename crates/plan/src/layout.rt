// How a transfer's bursts lie. The first starts anywhere; unless the transfer ends in it, it ends at the end of a word. From
// there to the end of its page, and again from the next page on, bursts start a stride apart, so division gives their number.
ghost use Rattle.std.specs.Prelude.{◌≡◌, true, ◌+◌, ◌-◌, ◌/◌, ◌%◌, ◌≤◌, ◌<◌, ◌^◌, min, length};
ghost use Rattle.std.specs.Int.Count.{count_trailing_zeros};
ghost use Rattle.kit.specs.Limits.{most_bytes};
ghost use Rattle.kit.specs.Settings.{legal_settings};
ghost use Rattle.cut.specs.Cut.{page, cut};
ghost use Rattle.plan.specs.Layout.{stride_of};

use cut::{PAGE, span, word_offset};

// The bytes of the words that a burst may touch, or a page if that is less. With legal settings a page is whole strides.
pub fn stride(width: u32, beats: u32) -> u32
    ensures { result ≡ stride_of width beats }
{
    span(width, beats).min(PAGE) as u32
}

// How many bytes of a transfer are in the page that it starts in.
pub fn in_page(start: u32, count: u32) -> u32
    ensures { result ≡ min (page - start % page) count }
{
    (PAGE as u32 - start % PAGE as u32).min(count)
}

// A division by a stride, which is a power of two. The compiler cannot see that, so the code shifts.
pub fn divide(bytes: u32, stride: u32) -> u32
    requires { 2 ^ count_trailing_zeros 32 stride ≡ stride }
    ensures { result ≡ bytes / stride }
{
    bytes >> u32::trailing_zeros(stride)
}

// How many bursts these bytes take, if the first starts at a word and all but the last have a stride's bytes.
fn pieces(bytes: u32, stride: u32) -> u32
    requires stride_nonzero { 0 < stride }
    requires stride_value { 2 ^ count_trailing_zeros 32 stride ≡ stride }
    requires bytes_le_most_bytes { bytes ≤ most_bytes }
    requires stride_le_page { stride ≤ page }
    ensures { result ≡ (bytes + (stride - 1)) / stride }
{
    divide(bytes + (stride - 1), stride)
}

// The number of bursts of a transfer: those of its first page, counted from the start of the first byte's word, and those of
// the pages after it.
pub fn count_bursts(width: u32, beats: u32, start: u32, count: u32) -> u32
    requires beats_value { legal_settings width beats ≡ true }
    requires count_nonzero { 0 < count }
    requires count_le_most_bytes { count ≤ most_bytes }
    ensures { result ≡ length (cut width beats start (start + count)) }
{
    let stride = stride(width, beats);
    let here = in_page(start, count);
    let from_word = word_offset(width, start as u64) as u32 + here;
    pieces(from_word, stride) + pieces(count - here, stride)
}
