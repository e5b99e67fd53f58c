// Whether a state that is lent as words is accepted, and why it is refused where it is not.
// "A state is accepted if nothing in it earns 1 to 4"; every function is total, and its contract is one equation.
#![tactic(auto)]

ghost use Rattle.std.specs.Prelude.{◌≡◌};
ghost use Rattle.def_refusals.specs.Verdicts.{class_of};
ghost use Rattle.refuse_entries.specs.Words.{wrong_lengths, values_out_of_range, rows_out_of_range, values_unfit, rows_unfit, state_out_of_range, state_unfit, state_refusal};

use def_refusals::{Refusal, Verdict};
use lent_slices::get_or;
use refuse_entries::{access_out_of_range, next_out_of_range, value_out_of_range, value_unfit};
use refuse_rows::{row_out_of_range, row_unfit};

// How many words the values have: one for each number, with 0, which is no value number.
// Both searches of the values go up to it.
const VALUES: u32 = 1024;

// Whether one of the 1,024 words of the values earns 3.
// The words past the end of a short list count as zero; a list of another length earns 1.
fn values_out_of_range(values: &[u64], n: u32) -> bool
    ensures { result ≡ values_out_of_range n values.now }
{
    (0..VALUES).any(|v| value_out_of_range(get_or(values, v as usize, 0), v, n))
}

// Whether one of the 1,024 words of the values earns 4.
// The words past the end of a short list count as zero; a list of another length earns 1.
fn values_unfit(values: &[u64], next: u32) -> bool
    ensures { result ≡ values_unfit next values.now }
{
    (0..VALUES).any(|v| value_unfit(get_or(values, v as usize, 0), v, next))
}

// Whether the row of one of n identifiers earns 3.
// The rows are those of the identifiers in the list.
fn rows_out_of_range(sets: &[u64], n: u32) -> bool
    ensures { result ≡ rows_out_of_range n sets.now }
{
    (0..n).any(|i| row_out_of_range(sets, i, n))
}

// Whether the row of one of n identifiers earns 4.
// The rows are those of the identifiers in the list.
fn rows_unfit(sets: &[u64], n: u32, next: u32) -> bool
    ensures { result ≡ rows_unfit n next sets.now }
{
    (0..n).any(|i| row_unfit(sets, i, next))
}

// Whether a state's lists have another length than 1,024 words of values and 16 words for each of at most 512 identifiers.
// This is refusal 1, and nothing else is looked at before it.
#[tactic(auto, unfolding(refuse_entries::specs::Words::wrong_lengths))]
pub fn wrong_lengths(values: &[u64], sets: &[u64]) -> bool
    ensures { result ≡ wrong_lengths values.now sets.now }
{
    values.len() != 1024 || sets.len() % 16 != 0 || sets.len() > 8192
}

// Whether anything in the session or in the state of n identifiers earns 3.
// The session is two words and comes first.
#[tactic(auto, unfolding(refuse_entries::specs::Words::state_out_of_range))]
fn state_out_of_range(values: &[u64], sets: &[u64], n: u32, next: u32, access: u32) -> bool
    ensures { result ≡ state_out_of_range n next access values.now sets.now }
{
    next_out_of_range(next)
        || access_out_of_range(access, n)
        || values_out_of_range(values, n)
        || rows_out_of_range(sets, n)
}

// Whether anything in the state of n identifiers earns 4.
// It is asked only where nothing earns 3.
#[tactic(auto, unfolding(refuse_entries::specs::Words::state_unfit))]
fn state_unfit(values: &[u64], sets: &[u64], n: u32, next: u32) -> bool
    ensures { result ≡ state_unfit n next values.now sets.now }
{
    values_unfit(values, next) || rows_unfit(sets, n, next)
}

// Why a state is refused, with its session's next number and first access, if it is.
// The lowest that anything in it earns: Length, then Range, then Order.
pub fn state_refusal(values: &[u64], sets: &[u64], next: u32, access: u32) -> Verdict
    ensures { class_of result ≡ state_refusal values.now sets.now next access }
{
    if wrong_lengths(values, sets) {
        return Err(Refusal::Length);
    }
    let n = (sets.len() / 16) as u32;
    if state_out_of_range(values, sets, n, next, access) {
        return Err(Refusal::Range);
    }
    if state_unfit(values, sets, n, next) {
        return Err(Refusal::Order);
    }
    Ok(())
}
