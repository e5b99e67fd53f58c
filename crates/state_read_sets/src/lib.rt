// The public calls that look at the sets of a lent state, and the test of a whole state: each refuses what document 01 refuses, else it answers what the definition says, and leaves the tables.
// A state is lent as 1,024 words of values and 16 words of sets for each identifier; the session comes and goes by value.
#![tactic(auto)]

ghost use Rattle.std.specs.Prelude.{◌≡◌, false};
ghost use Rattle.lent_sets.specs.Rows.{set_at};
ghost use Rattle.base_sets.specs.Members.{values_of};
ghost use Rattle.def_refusals.specs.Verdicts.{class_of};
ghost use Rattle.refuse_entries.specs.Words.{state_refusal};
ghost use Rattle.def_transfer.specs.State as State;
ghost use Rattle.state_calls.specs.Calls as Calls;
ghost use Rattle.state_calls.specs.Calls.{written, values_refusal, values_answer, values_listed};
ghost use Rattle.state_calls.specs.Answers.{test_outcome, count_outcome, listed_outcome};
ghost use Rattle.state_calls.specs.Plain.{MeansPlain, values_for};

use def_effects::Session;
use def_refusals::{Refusal, Verdict};
use lent_members::{members, size};
use lent_sets;
use lent_slices::set;
use state_refusals::{refusal1, state_refusal};

// Whether a place is defined.
#[tactic(auto, using(state_calls::proofs::Laws::Call::defined_ends, state_calls::proofs::Laws::Call::defined_refused, state_calls::proofs::Laws::Said::test_said, state_means::proofs::Laws::Promises::is_defined_promise))]
pub fn is_defined(values: &[u64], sets: &[u64], session: Session, i: u32) -> Result<bool, Refusal>
    ensures { (test_outcome values.now sets.now session result
        ≡ Calls.is_defined values.now sets.now session i)
        × MeansPlain false (State.is_defined i) values.now sets.now session
        (test_outcome values.now sets.now session result) }
{
    refusal1(values, sets, session, i)?;
    Ok(lent_sets::is_defined(sets, i))
}

// Whether a state is accepted, with its session; else why it is refused.
// A state is accepted if nothing in it earns 1 to 4.
pub fn accepted(values: &[u64], sets: &[u64], session: Session) -> Verdict
    ensures { class_of result ≡ state_refusal values.now sets.now session.next session.access }
{
    state_refusal(values, sets, session)
}

// The values of a place, ascending, from the first word of a list on.
// A place that is not defined has none.
fn write_values(sets: &[u64], i: u32, out: &mut [u32])
    ensures { out.new ≡ written (values_of (set_at sets.now i)) 0 out.old }
{
    for (k, m) in members(sets, i).enumerate() {
        set(out, k, m);
    }
}

// The refusal of a call that lists the values of a place: 1 too where its list has not 1,024 words.
// A set has at most 1,023 values, so such a list suffices.
#[tactic(auto, using(state_calls::proofs::Laws::More::room_wrong, state_calls::proofs::Laws::More::room_right))]
fn values_refusal(values: &[u64], sets: &[u64], session: Session, i: u32, room: usize) -> Verdict
    ensures { class_of result ≡ values_refusal values.now sets.now session i room }
{
    if room != 1024 {
        return Err(Refusal::Length);
    }
    refusal1(values, sets, session, i)
}

// The values of a place in ascending order, in a list of 1,024 words with zeros behind them, and how many there are.
// The list is cleared before it is written, so that it is zero after a refusal.
pub fn values_for(
    values: &[u64],
    sets: &[u64],
    session: Session,
    i: u32,
    out: &mut [u32],
) -> Result<u32, Refusal>
    ensures { (count_outcome values.now sets.now session result
        ≡ values_answer values.now sets.now session i out.old)
        × (out.new ≡ values_listed values.now sets.now session i out.old)
        × MeansPlain false (values_for i) values.now sets.now session
        (listed_outcome out.new values.now sets.now session result) }
{
    let verdict = values_refusal(values, sets, session, i, out.len());
    out.fill(0);
    verdict?;
    write_values(sets, i, out);
    Ok(size(sets, i))
}
