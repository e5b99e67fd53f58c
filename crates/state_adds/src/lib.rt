// What another state adds to a state: an entry, a kind, a reason, a member of a set; and which of two states is above the other.
#![tactic(auto)]

ghost use Rattle.std.specs.Prelude.{◌≡◌, not, ◌/◌, min, eqb};
ghost use Rattle.std.specs.Int.Bits.{bit_or};
ghost use Rattle.def_transfer.specs.Merge.{adds_value, adds_set, adds, above};
ghost use Rattle.base_tests.specs.Tests.{any_below};
ghost use Rattle.lent_values.specs.Cells.{value_at};
ghost use Rattle.lent_sets.specs.Rows.{set_at, row_number};
ghost use Rattle.state_adds.specs.Lists.{value_adds, set_adds};
ghost use Rattle.refuse_entries.specs.Words.{entries};

use lent_sets::{is_defined, row_word};
use lent_values::value_at;

// Whether the second state adds to the entry of value v: a new one, another kind, or a new reason.
// The test of merge and merge_from, value by value.
#[tactic(auto, using(crate::proofs::Laws::Code::adds_absent, crate::proofs::Laws::Code::adds_new))]
pub fn adds_value(values: &[u64], other: &[u64], v: usize) -> bool
    ensures { result ≡ adds_value (value_at values.now v) (value_at other.now v) }
{
    match value_at(other, v) {
        None => false,
        Some(b) => match value_at(values, v) {
            None => true,
            Some(a) => !a.above(b),
        },
    }
}

// Whether row i of the second list has a bit that row i of the first lacks.
// The loop of `adds_set`, for a row that is defined: bit 0 counts like a member.
fn adds_bits(sets: &[u64], other: &[u64], i: u32) -> bool
    ensures { result
        ≡ not (eqb (bit_or (row_number sets.now i) (row_number other.now i)) (row_number sets.now i)) }
{
    (0..16).any(|w| {
        let x = row_word(sets, i, w);
        x | row_word(other, i, w) != x
    })
}

// Whether the second state adds to the set of identifier i: it is newly defined, or has a new member.
// The test of merge and merge_from, place by place.
#[tactic(auto, using(crate::proofs::Laws::Code::set_some, crate::proofs::Laws::Code::set_none))]
pub fn adds_set(sets: &[u64], other: &[u64], i: u32) -> bool
    ensures { result ≡ adds_set (set_at sets.now i) (set_at other.now i) }
{
    is_defined(other, i) && adds_bits(sets, other, i)
}

// Whether the second state adds to the entry of some value.
// It goes down from 1,023, as the definition does.
fn adds_values(values: &[u64], other: &[u64]) -> bool
    ensures { result ≡ any_below 1024 (value_adds values.now other.now) }
{
    (0..1024).rev().any(|v| adds_value(values, other, v))
}

// How many rows a list of that many words has, of the 512 that there are identifiers.
// Loops over sets go as far as this, so that their cost follows the length of the list.
pub fn row_count(words: usize) -> u32
    ensures { result ≡ min 512 (words / 16) }
{
    (words / 16).min(512) as u32
}

// Whether the second state adds to the set of some identifier.
// It goes down from the last row of the second list: rows past its end are not defined and add nothing.
fn adds_sets(sets: &[u64], other: &[u64]) -> bool
    ensures { result ≡ any_below 512 (set_adds sets.now other.now) }
{
    (0..row_count(other.len() + 15))
        .rev()
        .any(|i| adds_set(sets, other, i))
}

// Whether the second state adds anything to the first.
// merge yields a state exactly then.
#[tactic(auto, unfolding(def_transfer::specs::Merge::adds))]
pub fn adds(values1: &[u64], sets1: &[u64], values2: &[u64], sets2: &[u64]) -> bool
    ensures { result ≡ adds (entries values1.now sets1.now) (entries values2.now sets2.now) }
{
    adds_values(values1, values2) || adds_sets(sets1, sets2)
}

// Whether the first state is above or equal to the second.
// It is just where the second adds nothing.
#[tactic(auto, using(crate::proofs::Laws::Code::above_is))]
pub fn is_above(values1: &[u64], sets1: &[u64], values2: &[u64], sets2: &[u64]) -> bool
    ensures { result ≡ above (entries values1.now sets1.now) (entries values2.now sets2.now) }
{
    !adds(values1, sets1, values2, sets2)
}
