// The public calls that change the sets of a lent state: each refuses what document 01 refuses and then leaves all as it was, else it does what the definition says.
// A state is lent as 1,024 words of values and 16 words of sets for each identifier; the session comes by value, and stays as it is.
#![tactic(auto)]

ghost use Rattle.std.specs.Prelude.{◌≡◌, false};
ghost use Rattle.def_transfer.specs.State as State;
ghost use Rattle.state_calls.specs.Calls as Calls;
ghost use Rattle.state_calls.specs.Answers.{done_outcome};
ghost use Rattle.state_calls.specs.Plain.{MeansPlain};

use def_effects::Session;
use def_refusals::Verdict;
use refuse_entries::number_too_new;
use state_calls::{no_number, outside};
use state_refusals::{refusal_of, refusal2};

// A place gets one value as its set.
// The value need not have an entry.
#[tactic(auto, using(state_calls::proofs::Laws::Call::define_ends, state_calls::proofs::Laws::Call::define_refused, state_calls::proofs::Laws::Said::done_said, state_means::proofs::Laws::Promises::define_promise))]
pub fn define(values: &[u64], sets: &mut [u64], session: Session, i: u32, v: u32) -> Verdict
    ensures { (done_outcome values.now sets.new session result ≡ Calls.define values.now sets.old session i v)
        × MeansPlain false (State.define i v) values.now sets.old session
        (done_outcome values.now sets.new session result) }
{
    let out = outside(sets, i) || no_number(sets, v);
    let unfit = number_too_new(v, session.next);
    refusal_of(values, sets, session, out, unfit)?;
    lent_set_writes::define(sets, i, v);
    Ok(())
}

// A place gets the set of another.
// One that is not defined gets its own value first.
#[tactic(auto, using(state_calls::proofs::Laws::Call::assign_ends, state_calls::proofs::Laws::Call::assign_refused, state_calls::proofs::Laws::Said::done_said, state_means::proofs::Laws::Promises::assign_promise))]
pub fn assign(
    values: &mut [u64],
    sets: &mut [u64],
    session: Session,
    into: u32,
    from: u32,
) -> Verdict
    ensures { (done_outcome values.new sets.new session result
        ≡ Calls.assign values.old sets.old session into from)
        × MeansPlain false (State.assign into from) values.old sets.old session
        (done_outcome values.new sets.new session result) }
{
    refusal2(values, sets, session, into, from)?;
    state_assign::assign(values, sets, into, from);
    Ok(())
}

// A place gets the values of another too.
// Nothing changes unless both are defined.
#[tactic(auto, using(state_calls::proofs::Laws::Call::append_ends, state_calls::proofs::Laws::Call::append_refused, state_calls::proofs::Laws::Said::done_said, state_means::proofs::Laws::Promises::append_alias_promise))]
pub fn append_alias(
    values: &[u64],
    sets: &mut [u64],
    session: Session,
    place: u32,
    value: u32,
) -> Verdict
    ensures { (done_outcome values.now sets.new session result
        ≡ Calls.append_alias values.now sets.old session place value)
        × MeansPlain false (State.append_alias place value) values.now sets.old session
        (done_outcome values.now sets.new session result) }
{
    refusal2(values, sets, session, place, value)?;
    lent_set_writes::append_set(sets, place, value);
    Ok(())
}
