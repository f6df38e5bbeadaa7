// include/belikumba.h, "Engine": which numbers are an engine's words, and which are those of a well-formed one. They are judged
// as they stand: an engine made of them and stored again to be compared would cost as much as a step.
#![tactic(auto)]

ghost use Rattle.std.specs.Prelude.{◌≡◌};
ghost use Rattle.words.specs.EngineWords.{ill_formed_of, engine_of};
ghost use Rattle.spelling.specs.Spelling.{whole_of, truths_of, bit_listed_of, phase_listed_of, still_of, spelled_of, aligned_of, inside_of, fits_of, phase_sound_of, sound_of, settled_of, moves_of};

use kit::limits::{ADDRESS_END, MOST_BYTES};
use kit::settings::Settings;
use state::engine::{Engine, Pointers, fresh};
use words::engine_words::{control, phase, pointers, settings, simple, status, transfer};

// As many words as an engine has. The compiler knows it, and drops the test; the contracts know it by the test alone.
fn whole(words: &[u32]) -> bool
    ensures { result ≡ whole_of words.now }
{
    words.len() == 22
}

// What is a truth is 0 or 1.
fn truths(words: &[u32; 22]) -> bool
    ensures { result ≡ truths_of words.now }
{
    (words[2] < 2)
        & (words[3] < 2)
        & (words[4] < 2)
        & (words[6] < 2)
        & (words[7] < 2)
        & (words[20] < 2)
        & (words[21] < 2)
}

// The number of an error bit, or 0 for none: C keeps the number.
fn bit_listed(number: u32) -> bool
    ensures { result ≡ bit_listed_of number }
{
    matches!(number, 0 | 4..=6 | 8..=10)
}

// The number of a phase, which C keeps too.
fn phase_listed(number: u32) -> bool
    ensures { result ≡ phase_listed_of number }
{
    matches!(number, 0..=2 | 28..=31)
}

// No transfer.
fn still(words: &[u32; 22]) -> bool
    ensures { result ≡ still_of words.now }
{
    (words[16] == 0) & (words[17] == 0) & (words[18] == 0) & (words[19] == 0)
}

// Whether an engine has these words.
fn spelled(words: &[u32; 22]) -> bool
    ensures { result ≡ spelled_of words.now }
{
    let number = words[15];
    whole(words)
        & truths(words)
        & bit_listed(words[5])
        & phase_listed(number)
        & ((number == 2) | still(words))
}

// Words that no engine has stand for one that is not well formed, so that each call on them is answered in its order.
fn ill_formed(settings: Settings) -> Engine
    ensures { result ≡ ill_formed_of settings }
{
    let engine = fresh(settings);
    Engine {
        pointers: Pointers {
            current: 1,
            ..engine.pointers
        },
        ..engine
    }
}

pub fn load(words: &[u32; 22]) -> Engine
    ensures { result ≡ engine_of words.now }
{
    let settings = settings(words);
    if !spelled(words) {
        return ill_formed(settings);
    }
    // Told again and not by `engine_from`: a second caller would make that a call, and a run of few steps slower by a tenth.
    let transfer = transfer(words);
    Engine {
        settings,
        control: control(words),
        status: status(words),
        pointers: pointers(words),
        simple: simple(words),
        phase: phase(words[15], transfer),
    }
}

// The pointers are multiples of 64.
fn aligned(words: &[u32; 22]) -> bool
    ensures { result ≡ aligned_of words.now }
{
    (words[8] % 64 == 0) & (words[9] % 64 == 0) & (words[10] % 64 == 0) & (words[11] % 64 == 0)
}

// Whether an address that far behind `start` exists.
fn inside(start: u32, moved: u32) -> bool
    ensures { result ≡ inside_of start moved }
{
    (start as u64) + (moved as u64) < ADDRESS_END
}

// The transfer is not at its end, and is where the addresses are.
fn fits(words: &[u32; 22]) -> bool
    ensures { result ≡ fits_of words.now }
{
    let moved = words[19];
    (moved < words[18])
        & (words[18] <= MOST_BYTES)
        & inside(words[16], moved)
        & inside(words[17], moved)
}

// What a phase asks of the other words: an error bit only where it is idle, fetch and update only in chain mode, a transfer
// that fits where it moves and none elsewhere.
fn phase_sound(words: &[u32; 22]) -> bool
    ensures { result ≡ phase_sound_of words.now }
{
    match words[15] {
        0 => bit_listed(words[5]) & still(words),
        2 => (words[5] == 0) & fits(words),
        number => phase_listed(number) & (words[5] == 0) & (words[2] == 1) & still(words),
    }
}

// Whether a well-formed engine has these words.
pub fn sound(words: &[u32; 22]) -> bool
    ensures { result ≡ sound_of words.now }
{
    whole(words) & truths(words) & aligned(words) & (words[14] <= MOST_BYTES) & phase_sound(words)
}

// No error bit is set, the byte count register fits, and the phase is a move.
fn settled(words: &[u32; 22]) -> bool
    ensures { result ≡ settled_of words.now }
{
    (words[5] == 0) & (words[14] <= MOST_BYTES) & (words[15] == 2)
}

// Whether such an engine is in the midst of a transfer.
pub fn moves(words: &[u32; 22]) -> bool
    ensures { result ≡ moves_of words.now }
{
    whole(words) & truths(words) & aligned(words) & settled(words) & fits(words)
}
