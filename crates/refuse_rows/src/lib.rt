// Refusals 3 and 4 of a single row of sets.
#![tactic(auto)]

ghost use Rattle.std.specs.Prelude.{◌≡◌};
ghost use Rattle.refuse_entries.specs.Words.{row_out_of_range, row_in_use, row_too_new, row_unfit};

use lent_members::next_member;
use lent_sets::{is_defined, row_word};

// Whether the row of identifier i earns 3: a member from 512 + n on.
// Members are below 1,024, so none can be where the list is full.
#[tactic(auto, using(refuse_entries::proofs::Laws::Row::out_undefined, refuse_entries::proofs::Laws::Row::out_full, crate::proofs::Laws::Search::out_found))]
pub fn row_out_of_range(sets: &[u64], i: u32, n: u32) -> bool
    ensures { result ≡ row_out_of_range n sets.now i }
{
    is_defined(sets, i) && n < 512 && next_member(sets, i, 512 + n).is_some()
}

// Whether one of the 16 words of row i is not zero.
// Asked of a row that is not defined, which has only unused words.
fn row_in_use(sets: &[u64], i: u32) -> bool
    ensures { result ≡ row_in_use sets.now i }
{
    (0..16).any(|w| row_word(sets, i, w) != 0)
}

// Whether the row of identifier i has a member that is a fresh number not below next.
// Bit 0 is no member, so the search starts at 1 or later.
fn row_too_new(sets: &[u64], i: u32, next: u32) -> bool
    ensures { result ≡ row_too_new next sets.now i }
{
    is_defined(sets, i) && next_member(sets, i, next.max(1)).is_some_and(|v| v < 512)
}

// Whether the row of identifier i earns 4: a member not handed out yet, or not defined and not zero.
// All words of a row that is not defined are unused.
#[tactic(auto, using(refuse_entries::proofs::Laws::Row::unfit_defined, refuse_entries::proofs::Laws::Row::unfit_undefined))]
pub fn row_unfit(sets: &[u64], i: u32, next: u32) -> bool
    ensures { result ≡ row_unfit next sets.now i }
{
    if is_defined(sets, i) {
        row_too_new(sets, i, next)
    } else {
        row_in_use(sets, i)
    }
}
