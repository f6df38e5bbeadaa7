// RULES.md, "Trace and listing": the words of a line. A word goes out with the blank after it, as two little-endian words
// of four bytes: the compiler makes a table of them, and no branch is left.
ghost use Rattle.std.specs.Prelude.{◌≡◌, ◌+◌, ◌≤◌, length};
ghost use Rattle.std.proofs.lemmas.List.Edits.{sets};
ghost use Rattle.kit.specs.Word.{word_at};
ghost use Rattle.listing.specs.Word.{spaced_of, eight_of};

use kit::word::store;

#[derive(Clone, Copy)]
pub enum Word {
    Set,
    Memory,
    Window,
    Write,
    Read,
    NoRead,
    Bus,
    Fetch,
    Move,
    Fault,
    Update,
    Halt,
    Stop,
    Bad,
}

// The first four bytes, the next four, and how many of them are the word and its blank: the others are zeros.
#[derive(Clone, Copy)]
struct Bytes(u32, u32, usize);

fn packed(word: Word) -> Bytes
    ensures { (result.0 ≡ word_at (eight_of word) 0) × (result.1 ≡ word_at (eight_of word) 4) × (result.2 ≡ length (spaced_of word)) }
{
    match word {
        Word::Set => Bytes(0x2074_6573, 0x0000_0000, 4), // "set "
        Word::Memory => Bytes(0x6f6d_656d, 0x0020_7972, 7), // "memory "
        Word::Window => Bytes(0x646e_6977, 0x0020_776f, 7), // "window "
        Word::Write => Bytes(0x7469_7277, 0x0000_2065, 6), // "write "
        Word::Read => Bytes(0x6461_6572, 0x0000_0020, 5), // "read "
        Word::NoRead => Bytes(0x6572_6f6e, 0x0020_6461, 7), // "noread "
        Word::Bus => Bytes(0x2073_7562, 0x0000_0000, 4), // "bus "
        Word::Fetch => Bytes(0x6374_6566, 0x0000_2068, 6), // "fetch "
        Word::Move => Bytes(0x6576_6f6d, 0x0000_0020, 5), // "move "
        Word::Fault => Bytes(0x6c75_6166, 0x0000_2074, 6), // "fault "
        Word::Update => Bytes(0x6164_7075, 0x0020_6574, 7), // "update "
        Word::Halt => Bytes(0x746c_6168, 0x0000_0020, 5), // "halt "
        Word::Stop => Bytes(0x706f_7473, 0x0000_0020, 5), // "stop "
        Word::Bad => Bytes(0x2064_6162, 0x0000_0000, 4), // "bad "
    }
}

// The word and its blank from `at` on, and zeros up to eight bytes; the result is the place past the blank.
#[tactic(auto, using(crate::proofs::Words::spaced_most))]
pub fn put_word(out: &mut [u8], at: usize, word: Word) -> usize
    requires { at + 8 ≤ length out.old }
    ensures { (result ≡ at + length (spaced_of word)) × (out.new ≡ sets out.old at (eight_of word)) }
{
    let bytes = packed(word);
    store(out, at, bytes.0);
    store(out, at + 4, bytes.1);
    at + bytes.2
}
