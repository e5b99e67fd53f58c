// The members of a set one after the other, and how many there are.
#![tactic(auto)]

ghost use Rattle.std.specs.Prelude.{◌≡◌, length, eqb};
ghost use Rattle.std.specs.Int.Count.{ones};
ghost use Rattle.lent_sets.specs.Rows.{number, set_at, row_number};
ghost use Rattle.base_sets.specs.Members.{values_of};
ghost use Rattle.lent_members.specs.Members.{member_from, rest};
ghost use Rattle.std.specs.Iterator.{YieldsFirst, item_count};

use lent_sets::{is_defined, row_word};
use lent_slices::get_or;

// The lowest member of row i from `from` on, if there is one.
// A loop over the values of a set goes by it; a word without members is one step.
// Only the word with `from` is shifted: a shift for each word would slow the search of a sparse row.
pub fn next_member(rows: &[u64], i: u32, from: u32) -> Option<u32>
    ensures { result ≡ member_from rows.now i from }
{
    if from >= 1024 {
        return None;
    }
    let rest = row_word(rows, i, from / 64) >> (from % 64);
    if rest != 0 {
        return Some(from + u64::trailing_zeros(rest));
    }
    for w in from / 64 + 1..16 {
        let word = row_word(rows, i, w);
        if word != 0 {
            return Some(w * 64 + u64::trailing_zeros(word));
        }
    }
    None
}

// The members of the set of an identifier, ascending: an iterator that looks for the next from a place of the row on.
#[derive(Drop)]
pub struct MemberIter<'a> {
    rows: &'a [u64],
    i: u32,
    from: u32,
}

impl<'a> Iterator for MemberIter<'a> {
    type Item = u32;

    ghost next_gives = { YieldsFirst rest };

    ghost remaining = { item_count rest };

    #[tactic(auto, using(crate::proofs::Laws::Members::some_left, crate::proofs::Laws::Members::none_left))]
    fn next(&mut self) -> Option<u32> {
        let v = next_member(self.rows, self.i, self.from)?;
        self.from = v + 1;
        Some(v)
    }
}

// The values of the set of identifier i, one after the other; none where it is not defined.
#[tactic(auto, using(crate::proofs::Laws::Members::all_left, crate::proofs::Laws::Members::no_left))]
pub fn members<'a>(rows: &'a [u64], i: u32) -> MemberIter<'a>
    ensures { rest result ≡ values_of (set_at rows.now i) }
{
    let from = if is_defined(rows, i) { 1 } else { 1024 };
    MemberIter { rows, i, from }
}

// How many bits of row i are set, with the one that says that it is defined.
// The sum of the counts of its words.
fn count_bits(rows: &[u64], i: u32) -> u32
    ensures { result ≡ ones (row_number rows.now i) }
{
    (0..16).map(|w| u64::count_ones(row_word(rows, i, w))).sum()
}

// How many values the set of identifier i has; 0 where it is not defined.
// A set of one value is treated in another way than a larger one.
pub fn size(rows: &[u64], i: u32) -> u32
    ensures { result ≡ length (values_of (set_at rows.now i)) }
{
    if is_defined(rows, i) {
        count_bits(rows, i) - 1
    } else {
        0
    }
}

// Whether a set in hand has no bit.
// A phi whose operands have no values leaves its place as it was.
pub fn is_empty(acc: &[u64]) -> bool
    ensures { result ≡ eqb (number 16 acc.now 0) 0 }
{
    (0..16).all(|w| get_or(acc, w, 0) == 0)
}
