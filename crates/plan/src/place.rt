// What a plan is written in: numbers, or bytes, of which four spell a number, the lowest first.
ghost use Rattle.std.specs.Prelude.{◌≡◌, ℕ, List, ◌+◌, ◌≤◌, [], ◌∷◌, length};
ghost use Rattle.std.proofs.lemmas.List.Edits.{sets};
ghost use Rattle.cut.specs.declared.Burst.{Burst};
ghost use Rattle.plan.specs.Plan.{places_of};
ghost use Rattle.plan.specs.Spelling.{little, Spelling, burst_of, places_spelling, little_spelling};

use kit::word::store;

pub trait Place: Copy {
    // How bursts are spelled.
    ghost spelled: { List Burst → List Self };

    // How many places a burst takes.
    ghost size: { ℕ };

    // Puts one burst from `place` on. The result is the first place after it.
    fn put_burst(places: &mut [Self], place: usize, start: u32, bytes: u32) -> usize
        requires { place + size ≤ length places.old }
        ensures next { result ≡ place + size }
        ensures places_after { places.new ≡ sets places.old place (spelled (burst_of start bytes)) };

    ghost laws: { Spelling spelled size };
}

impl Place for u32 {
    ghost spelled = { places_of };

    ghost size = { 2 };

    ghost laws = { places_spelling };

    fn put_burst(places: &mut [u32], place: usize, start: u32, bytes: u32) -> usize {
        places[place] = start;
        places[place + 1] = bytes;
        place + 2
    }
}

impl Place for u8 {
    ghost spelled = { little };

    ghost size = { 8 };

    ghost laws = { little_spelling };

    fn put_burst(places: &mut [u8], place: usize, start: u32, bytes: u32) -> usize {
        store(places, place, start);
        store(places, place + 4, bytes);
        place + 8
    }
}
