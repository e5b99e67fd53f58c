// Rows of 1,024 bits, each 16 words of a lent slice: the set of values of each identifier.
// Bit 0 of a row says that the identifier is defined, bit v that value v is in its set; all is total, and one equation each.
#![tactic(auto)]

ghost use Rattle.std.specs.Prelude.{◌≡◌, ◌^◌, get_or, set};
ghost use Rattle.std.specs.Int.Bits.{bit_or};
ghost use Rattle.lent_sets.specs.Rows.{row_word, set_word, number, word_of, set_at, member_word, add_set};
ghost use Rattle.base_tests.specs.Tests.{is_some};

use lent_slices::{get_or, set};

// Word w of row i, or 0 past the end.
// Every read of a row goes through it.
pub fn row_word(rows: &[u64], i: u32, w: u32) -> u64
    ensures { result ≡ row_word rows.now i w }
{
    get_or(rows, i as usize * 16 + (w as usize), 0)
}

// Word w of row i becomes x; past the end nothing changes.
// Every write of a row goes through it.
pub fn set_word(rows: &mut [u64], i: u32, w: u32, x: u64)
    ensures { rows.new ≡ set_word rows.old i w x }
{
    set(rows, i as usize * 16 + (w as usize), x);
}

// Whether identifier i is defined: bit 0 of its row.
// An identifier that is not defined has no set, which is not the same as an empty one.
pub fn is_defined(rows: &[u64], i: u32) -> bool
    ensures { result ≡ is_some (set_at rows.now i) }
{
    row_word(rows, i, 0) % 2 == 1
}

// Word w of row i, without the bit that says that it is defined.
// What a row adds to a union of sets.
pub fn member_word(rows: &[u64], i: u32, w: u32) -> u64
    ensures { result ≡ member_word rows.now i w }
{
    let x = row_word(rows, i, w);
    if w == 0 { x - x % 2 } else { x }
}

// Word w of a set in hand gets the bits of x too; past its end nothing changes.
pub fn or_word(acc: &mut [u64], w: u32, x: u64)
    ensures { acc.new ≡ set acc.old w (bit_or (get_or acc.old w 0) x) }
{
    let k = w as usize;
    let y = get_or(acc, k, 0);
    set(acc, k, y | x);
}

// A set in hand gets the value v too; a v past 1,023 adds nothing.
pub fn add_value(acc: &mut [u64], v: u32)
    ensures { acc.new ≡ add_set acc.old (2 ^ v) }
{
    if v < 1024 {
        or_word(acc, v / 64, 1 << v % 64);
    }
}

// Word w of a set in hand, with the bit that says that its row is defined; 0 past the 16 words.
// What `put_set` stores.
pub fn marked_word(acc: &[u64], w: u32) -> u64
    ensures { result ≡ word_of (bit_or (number 16 acc.now 0) 1) w }
{
    let x = get_or(acc, w as usize, 0);
    if w == 0 {
        return x | 1;
    }
    if w < 16 {
        return x;
    }
    0
}
