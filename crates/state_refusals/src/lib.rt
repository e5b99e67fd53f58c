// The refusal of a call on a state, by its state and its arguments.
#![tactic(auto)]

ghost use Rattle.std.specs.Prelude.{◌≡◌};
ghost use Rattle.def_refusals.specs.Verdicts.{class_of};
ghost use Rattle.refuse_entries.specs.Words.{state_refusal};
ghost use Rattle.state_calls.specs.Calls.{refusal_of, outside, refusal1, refusal2};

use def_effects::Session;
use def_refusals::Verdict;
use refuse_state;
use state_calls::{outside, worst};

// What a state with its session is refused for.
pub fn state_refusal(values: &[u64], sets: &[u64], session: Session) -> Verdict
    ensures { class_of result ≡ state_refusal values.now sets.now session.next session.access }
{
    refuse_state::state_refusal(values, sets, session.next, session.access)
}

// The refusal of a call, by its state and its arguments' classes.
#[tactic(auto, unfolding(state_calls::specs::Calls::refusal_of))]
pub fn refusal_of(values: &[u64], sets: &[u64], session: Session, out: bool, unfit: bool) -> Verdict
    ensures { class_of result ≡ refusal_of values.now sets.now session out unfit }
{
    worst(state_refusal(values, sets, session), out, unfit)
}

// The refusal of a call with one identifier.
// Range where it is not in the list.
#[tactic(auto, unfolding(state_calls::specs::Calls::refusal1))]
pub fn refusal1(values: &[u64], sets: &[u64], session: Session, i: u32) -> Verdict
    ensures { class_of result ≡ refusal1 values.now sets.now session i }
{
    refusal_of(values, sets, session, outside(sets, i), false)
}

// The refusal of a call with two identifiers.
// Range where one is not in the list.
#[tactic(auto, unfolding(state_calls::specs::Calls::refusal2))]
pub fn refusal2(values: &[u64], sets: &[u64], session: Session, i: u32, j: u32) -> Verdict
    ensures { class_of result ≡ refusal2 values.now sets.now session i j }
{
    let out = outside(sets, i) || outside(sets, j);
    refusal_of(values, sets, session, out, false)
}
