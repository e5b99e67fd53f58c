// What the calls on two states share: the answer of merge_from, and the refusal of a call by both states.
#![tactic(auto)]

ghost use Rattle.std.specs.Prelude.{◌≡◌};
ghost use Rattle.def_refusals.specs.Verdicts.{class_of};
ghost use Rattle.state_pairs.specs.MergeCalls.{wrong_length, pair_refusal, third_refusal};

use def_effects::Session;
use def_refusals::{Refusal, Verdict};
use refuse_class::lower;
use state_refusals::state_refusal;

// The answer of merge_from: the session after it, whose access is cleared, and the function-expression flag of the first state.
#[derive(Clone, Copy)]
pub struct SessionAnswer {
    pub session: Session,
    pub flag: bool,
}

// Length where a list has another length than it must have.
// "1: a lent slice or image has the wrong length."
#[tactic(auto, using(crate::proofs::Laws::MergeCall::length_fits, crate::proofs::Laws::MergeCall::length_wrong))]
fn wrong_length(m: usize, n: usize) -> Verdict
    ensures { class_of result ≡ wrong_length m n }
{
    if m == n { Ok(()) } else { Err(Refusal::Length) }
}

// The refusal of two states that are lent together: the lower class of both, and Length where they are not of the same identifiers.
// "A state is accepted if nothing in it earns 1 to 4"; both have the call's next number and first access.
#[tactic(auto, using(crate::proofs::Laws::MergeCall::pair_is))]
pub fn pair_refusal(
    values1: &[u64],
    sets1: &[u64],
    values2: &[u64],
    sets2: &[u64],
    session: Session,
) -> Verdict
    ensures { class_of result
        ≡ pair_refusal values1.now sets1.now values2.now sets2.now session }
{
    let differ = wrong_length(sets2.len(), sets1.len());
    let first = state_refusal(values1, sets1, session);
    let second = state_refusal(values2, sets2, session);
    lower(differ, lower(first, second))
}

// The refusal of a third state that is only written: Length where its lists are not as long as the first state's must be.
// "`merge` writes a third lent state": what it holds before does not matter.
#[tactic(auto, using(crate::proofs::Laws::MergeCall::third_is))]
pub fn third_refusal(sets1: &[u64], values3: &[u64], sets3: &[u64]) -> Verdict
    ensures { class_of result ≡ third_refusal sets1.now values3.now sets3.now }
{
    lower(
        wrong_length(values3.len(), 1024),
        wrong_length(sets3.len(), sets1.len()),
    )
}
