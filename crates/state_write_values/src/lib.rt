// The public calls that change the values of a lent state: each refuses what document 01 refuses and then leaves all as it was, else it does what the definition says.
// A state is lent as 1,024 words of values and 16 words of sets for each identifier; the session comes by value, and stays as it is.
#![tactic(auto)]

ghost use Rattle.std.specs.Prelude.{◌≡◌, false};
ghost use Rattle.def_transfer.specs.State as State;
ghost use Rattle.state_calls.specs.Calls as Calls;
ghost use Rattle.state_calls.specs.Answers.{done_outcome, test_outcome};
ghost use Rattle.state_calls.specs.Plain.{MeansPlain};

use def_effects::Session;
use def_kinds::{AbstractValue, are_reasons, is_reason};
use def_refusals::{Refusal, Verdict};
use lent_values::put_value;
use refuse_entries::number_too_new;
use state_calls::{no_number, outside};
use state_refusals::refusal_of;

// A value number gets kind and reasons.
// A value keeps nothing of the entry that it had.
#[tactic(auto, using(state_calls::proofs::Laws::Call::initialize_ends, state_calls::proofs::Laws::Call::initialize_refused, state_calls::proofs::Laws::Said::done_said, state_means::proofs::Laws::Promises::initialize_promise))]
pub fn initialize(
    values: &mut [u64],
    sets: &[u64],
    session: Session,
    v: u32,
    a: AbstractValue,
) -> Verdict
    ensures { (done_outcome values.new sets.now session result
        ≡ Calls.initialize values.old sets.now session v a)
        × MeansPlain false (State.initialize v a) values.old sets.now session
        (done_outcome values.new sets.now session result) }
{
    let out = no_number(sets, v) || !are_reasons(a.reason);
    let unfit = number_too_new(v, session.next);
    refusal_of(values, sets, session, out, unfit)?;
    put_value(values, v as usize, a);
    Ok(())
}

// A place is frozen with a reason, and the answer says whether that acted.
#[tactic(auto, using(state_calls::proofs::Laws::Call::freeze_ends, state_calls::proofs::Laws::Call::freeze_refused, state_calls::proofs::Laws::Said::test_said, state_means::proofs::Laws::Promises::freeze_promise))]
pub fn freeze(
    values: &mut [u64],
    sets: &[u64],
    session: Session,
    i: u32,
    reason: u32,
) -> Result<bool, Refusal>
    ensures { (test_outcome values.new sets.now session result
        ≡ Calls.freeze values.old sets.now session i reason)
        × MeansPlain false (State.freeze i reason) values.old sets.now session
        (test_outcome values.new sets.now session result) }
{
    let out = outside(sets, i) || !is_reason(reason);
    refusal_of(values, sets, session, out, false)?;
    Ok(state_freeze::freeze(values, sets, i, reason))
}
