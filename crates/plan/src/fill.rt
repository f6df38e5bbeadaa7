// The bursts of a transfer written to a lent slice that has room for them.
ghost use Rattle.std.specs.Prelude.{◌≡◌, true, ◌+◌, ◌*◌, ◌≤◌, ◌<◌, ◌^◌, length};
ghost use Rattle.std.specs.Int.Count.{count_trailing_zeros};
ghost use Rattle.std.proofs.lemmas.List.Edits.{sets};
ghost use Rattle.kit.specs.Limits.{address_end};
ghost use Rattle.kit.specs.Settings.{legal_settings};
ghost use Rattle.cut.specs.Cut.{cut};
ghost use Rattle.plan.specs.Layout.{even_of, laid_of};

use crate::layout::{divide, in_page, stride};
use crate::place::Place;
use cut::burst_bytes;

// Bursts of one length: no turn asks where the next one ends, so the compiler writes several at a time. The result is the first
// place after them, here and below.
fn lay_even<P: Place>(places: &mut [P], place: usize, at: u64, each: u32, bursts: u32) -> usize
    requires each_nonzero { 0 < each }
    requires bursts_bound { at + each * bursts ≤ address_end }
    requires bursts_in_bounds { place + P.size * bursts ≤ length places.old }
    ensures next { result ≡ place + P.size * bursts }
    ensures places_after { places.new ≡ sets places.old place (P.spelled (even_of each bursts at)) }
{
    let mut at = at;
    let mut place = place;
    for _ in 0..bursts {
        place = P::put_burst(places, place, at as u32, each);
        at += each as u64;
    }
    place
}

// A stretch: bursts of one length and, if bytes are left, a shorter last one.
fn lay<P: Place>(places: &mut [P], place: usize, at: u64, bytes: u32, each: u32) -> usize
    requires each_nonzero { 0 < each }
    requires each_value { 2 ^ count_trailing_zeros 32 each ≡ each }
    requires bytes_bound { at + bytes ≤ address_end }
    requires bytes_in_bounds { place + P.size * length (laid_of each at bytes) ≤ length places.old }
    ensures next { result ≡ place + P.size * length (laid_of each at bytes) }
    ensures places_after { places.new ≡ sets places.old place (P.spelled (laid_of each at bytes)) }
{
    let bursts = divide(bytes, each);
    let next = lay_even(places, place, at, each, bursts);
    let even = each * bursts;
    let rest = bytes - even;
    if rest == 0 {
        return next;
    }
    P::put_burst(places, next, (at + even as u64) as u32, rest)
}

// Start and byte count of each burst of a transfer, in turn.
pub fn fill<P: Place>(width: u32, beats: u32, start: u32, count: u32, places: &mut [P])
    requires beats_value { legal_settings width beats ≡ true }
    requires count_nonzero { 0 < count }
    requires count_bound { start + count ≤ address_end }
    requires count_in_bounds { P.size * length (cut width beats start (start + count)) ≤ length places.old }
    ensures { places.new ≡ sets places.old 0 (P.spelled (cut width beats start (start + count))) }
{
    let each = stride(width, beats);
    let first = burst_bytes(width, beats, start as u64, count);
    let here = in_page(start, count);
    let next = P::put_burst(places, 0, start, first);
    let next = lay(
        places,
        next,
        start as u64 + first as u64,
        here - first,
        each,
    );
    lay(places, next, start as u64 + here as u64, count - here, each);
}
