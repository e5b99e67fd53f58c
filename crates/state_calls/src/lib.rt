// What the public calls on a lent state share: their answers, the refusal of a call by its state and its arguments, and the session after a use.
// A state is lent as 1,024 words of values and 16 words of sets for each identifier; the session comes and goes by value.
#![tactic(auto)]

ghost use Rattle.std.specs.Prelude.{◌≡◌};
ghost use Rattle.def_transfer.specs.Accepted.{not_anumber};
ghost use Rattle.def_refusals.specs.Verdicts.{class_of};
ghost use Rattle.refuse_entries.specs.Words.{identifiers};
ghost use Rattle.state_calls.specs.Calls.{worst, outside};

use def_effects::{MutationResult, Session};
use def_kinds::AbstractValue;
use def_refusals::{Refusal, Verdict};
use refuse_entries::number_out_of_range;

// The answer of a call that asks for a kind: the kind, and the session after it.
#[derive(Clone, Copy)]
pub struct KindAnswer {
    pub value: AbstractValue,
    pub session: Session,
}

// The answer of a mutation: what it comes to, and the session after it.
#[derive(Clone, Copy)]
pub struct MutationAnswer {
    pub result: MutationResult,
    pub session: Session,
}

// The lower class of a state's and of the arguments'.
// Order 1 to 5 over the whole input.
#[tactic(auto, unfolding(crate::specs::Calls::worst))]
pub fn worst(state: Verdict, out: bool, unfit: bool) -> Verdict
    ensures { class_of result ≡ worst (class_of state) out unfit }
{
    match state {
        Err(Refusal::Length | Refusal::Range) => state,
        _ if out => Err(Refusal::Range),
        Err(Refusal::Order) => state,
        _ if unfit => Err(Refusal::Order),
        _ => Ok(()),
    }
}

// Whether an identifier is not in the list.
// The list has as many as the sets have rows.
#[tactic(auto, using(base_tests::proofs::Laws::Order::le_not_lt), unfolding(crate::specs::Calls::outside, refuse_entries::specs::Words::identifiers))]
pub fn outside(sets: &[u64], i: u32) -> bool
    ensures { result ≡ outside sets.now i }
{
    (i as usize) >= sets.len() / 16
}

// Whether v is no value number of the list.
// Members and entries are value numbers.
#[tactic(auto, unfolding(refuse_entries::specs::Words::identifiers))]
pub fn no_number(sets: &[u64], v: u32) -> bool
    ensures { result ≡ not_anumber (identifiers sets.now) v }
{
    number_out_of_range(v, sets.len() / 16)
}
