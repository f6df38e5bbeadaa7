// RULES.md, "Trace and listing": a number in decimal, without padding, and one byte that closes it. Its digits come from the
// lent tables, three at a time. A store of four bytes may leave up to three bytes after its digits: the next one covers them.
ghost use Rattle.std.specs.Prelude.{◌≡◌, [], ◌∷◌, ◌++◌, ◌+◌, ◌/◌, ◌%◌, ◌≤◌, ◌<◌, ◌^◌, length};
ghost use Rattle.std.proofs.lemmas.List.Edits.{sets};
ghost use Rattle.digits.specs.Decimal.{digits_of, last_digits};
ghost use Rattle.digits.specs.Puts.{Puts, Starts};

use crate::tables::DigitTables;
use kit::word::store;

fn put_pair(out: &mut [u8], at: usize, word: u32)
    requires { at + 2 ≤ length out.old }
    ensures { out.new ≡ sets out.old at (word % 256 ∷ word / 256 % 256 ∷ []) }
{
    // Two stores: a copied slice of two says no more.
    let bytes = word.to_le_bytes();
    out[at] = bytes[0];
    out[at + 1] = bytes[1];
}

// One to three digits and the closing byte: two bytes from the front on, and the two last. Nothing after them changes.
fn put_short(tables: &DigitTables, out: &mut [u8], at: usize, value: u32, closing: u8) -> usize
    requires { (at + 4 ≤ length out.old) × (value < 10 ^ 3) }
    ensures { Puts out.old out.new at result (digits_of value ++ (closing ∷ [])) }
{
    let front = tables.leading[value as usize];
    let back = tables.padded[value as usize] / 65536 + 256 * closing as u32;
    let end = at + (front / 16777216) as usize;
    put_pair(out, at, front);
    put_pair(out, end - 1, back);
    end + 1
}

// The first digits of a number, one to three.
fn put_leading(tables: &DigitTables, out: &mut [u8], at: usize, value: u32) -> usize
    requires { (at + 4 ≤ length out.old) × (value < 10 ^ 3) }
    ensures { Starts out.old out.new at result (digits_of value) }
{
    let front = tables.leading[value as usize];
    store(out, at, front);
    at + (front / 16777216) as usize
}

// Three digits and the closing byte.
fn put_three(tables: &DigitTables, out: &mut [u8], at: usize, value: u32, closing: u8)
    requires { (at + 4 ≤ length out.old) × (value < 10 ^ 3) }
    ensures { out.new ≡ sets out.old at (last_digits 3 value ++ (closing ∷ [])) }
{
    let digits = tables.padded[value as usize];
    store(out, at, digits + 16777216 * closing as u32);
}

// Nine digits and the closing byte.
fn put_nine(tables: &DigitTables, out: &mut [u8], at: usize, value: u32, closing: u8)
    requires { (at + 10 ≤ length out.old) × (value < 10 ^ 9) }
    ensures { out.new ≡ sets out.old at (last_digits 9 value ++ (closing ∷ [])) }
{
    put_three(tables, out, at, value / 1000000, 0);
    put_three(tables, out, at + 3, value / 1000 % 1000, 0);
    put_three(tables, out, at + 6, value % 1000, closing);
}

// The first digits of a number, one to six.
#[tactic(auto, using(crate::proofs::Digits::most_three))]
fn put_thousands(tables: &DigitTables, out: &mut [u8], at: usize, value: u32) -> usize
    requires { (at + 7 ≤ length out.old) × (value < 10 ^ 6) }
    ensures { Starts out.old out.new at result (digits_of value) }
{
    if value < 1000 {
        return put_leading(tables, out, at, value);
    }
    let next = put_leading(tables, out, at, value / 1000);
    put_three(tables, out, next, value % 1000, 0);
    next + 3
}

// The first digits of a number, one to nine. It goes one step deeper than `put_thousands`: one function for both is a recursion,
// and no plainer.
#[tactic(auto, using(crate::proofs::Digits::most_six))]
fn put_millions(tables: &DigitTables, out: &mut [u8], at: usize, value: u32) -> usize
    requires { (at + 10 ≤ length out.old) × (value < 10 ^ 9) }
    ensures { Starts out.old out.new at result (digits_of value) }
{
    if value < 1000 {
        return put_leading(tables, out, at, value);
    }
    let next = put_thousands(tables, out, at, value / 1000);
    put_three(tables, out, next, value % 1000, 0);
    next + 3
}

// The first digits of a number, one to eleven: all but the last nine of 64 bits.
#[tactic(auto, using(crate::proofs::Digits::most_two))]
fn put_billions(tables: &DigitTables, out: &mut [u8], at: usize, value: u64) -> usize
    requires { (at + 12 ≤ length out.old) × (value < 10 ^ 11) }
    ensures { Starts out.old out.new at result (digits_of value) }
{
    if value < 1000000000 {
        return put_millions(tables, out, at, value as u32);
    }
    let next = put_leading(tables, out, at, (value / 1000000000) as u32);
    put_nine(tables, out, next, (value % 1000000000) as u32, 0);
    next + 9
}

// The number's digits from `at` on and the closing byte; the result is the place past it.
#[tactic(auto, using(crate::proofs::Digits::most_six, crate::proofs::Digits::most_eleven))]
pub fn put_number(tables: &DigitTables, out: &mut [u8], at: usize, value: u64, closing: u8) -> usize
    requires { at + 21 ≤ length out.old }
    ensures { Puts out.old out.new at result (digits_of value ++ (closing ∷ [])) }
{
    if value < 1000 {
        return put_short(tables, out, at, value as u32, closing);
    }
    if value < 1000000000 {
        let next = put_thousands(tables, out, at, (value / 1000) as u32);
        put_three(tables, out, next, (value % 1000) as u32, closing);
        return next + 4;
    }
    let next = put_billions(tables, out, at, value / 1000000000);
    put_nine(tables, out, next, (value % 1000000000) as u32, closing);
    next + 10
}

// The same, for the loops that put most lines: most numbers are below a million, and these two cases alone are short enough to
// be compiled into each line.
#[tactic(auto, using(crate::proofs::Digits::most_three))]
pub fn put_quick(tables: &DigitTables, out: &mut [u8], at: usize, value: u64, closing: u8) -> usize
    requires { at + 21 ≤ length out.old }
    ensures { Puts out.old out.new at result (digits_of value ++ (closing ∷ [])) }
{
    if value < 1000 {
        return put_short(tables, out, at, value as u32, closing);
    }
    if value < 1000000 {
        let next = put_leading(tables, out, at, (value / 1000) as u32);
        put_three(tables, out, next, (value % 1000) as u32, closing);
        return next + 4;
    }
    put_number(tables, out, at, value, closing)
}
