// Points-to sets that are written: a union in hand, `define`, the copy of `assign`, `append_alias`.
// The words of a row are read and written in `lent_sets`.
#![tactic(auto)]

ghost use Rattle.std.specs.Prelude.{◌≡◌, ◌^◌};
ghost use Rattle.lent_sets.specs.Rows.{number, set_at, put_set, copy_set, append_set, add_set, even_row};
ghost use Rattle.base_sets.specs.Members.{bits_of};

use lent_sets::{add_value, is_defined, marked_word, member_word, or_word, set_word};

// A set in hand gets the values of row i too, without the bit that says that the row is defined.
// The loop of `add_set`, for a row that is defined.
fn add_words(acc: &mut [u64], rows: &[u64], i: u32)
    ensures { acc.new ≡ add_set acc.old (even_row rows.now i) }
{
    for w in 0u32..16 {
        or_word(acc, w, member_word(rows, i, w));
    }
}

// A set in hand gets the values of identifier i too; one that is not defined adds none.
// A union of several sets, as of the operands of a phi, is taken so.
pub fn add_set(acc: &mut [u64], rows: &[u64], i: u32)
    ensures { acc.new ≡ add_set acc.old (bits_of (set_at rows.now i)) }
{
    if is_defined(rows, i) {
        add_words(acc, rows, i);
    }
}

// Identifier i is defined, with the set in hand.
// Past the end of the rows nothing changes.
pub fn put_set(rows: &mut [u64], i: u32, acc: &[u64])
    ensures { rows.new ≡ put_set rows.old i (number 16 acc.now 0) }
{
    for w in 0u32..16 {
        let x = marked_word(acc, w);
        set_word(rows, i, w, x);
    }
}

// Identifier i is defined, with the one value v.
// This is `define` of the state; a v past 1,023 gives the empty set.
pub fn define(rows: &mut [u64], i: u32, v: u32)
    ensures { rows.new ≡ put_set rows.old i (2 ^ v) }
{
    let mut acc = [0u64; 16];
    add_value(&mut acc, v);
    put_set(rows, i, &acc);
}

// `into` gets the set of `from`; nothing changes where `from` is not defined.
// This is the copy of `assign`.
pub fn copy_set(rows: &mut [u64], into: u32, from: u32)
    ensures { rows.new ≡ copy_set rows.old into from }
{
    if is_defined(rows, from) {
        let mut acc = [0u64; 16];
        add_set(&mut acc, rows, from);
        put_set(rows, into, &acc);
    }
}

// `place` gets the values of `value` too; nothing changes unless both are defined.
// This is `append_alias`.
pub fn append_set(rows: &mut [u64], place: u32, value: u32)
    ensures { rows.new ≡ append_set rows.old place value }
{
    if is_defined(rows, place) {
        if is_defined(rows, value) {
            let mut acc = [0u64; 16];
            add_set(&mut acc, rows, place);
            add_set(&mut acc, rows, value);
            put_set(rows, place, &acc);
        }
    }
}
