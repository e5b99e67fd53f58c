// The public call for a phi: the place gets the union of the sets of its operands.
#![tactic(auto)]

ghost use Rattle.std.specs.Prelude.{◌≡◌, false};
ghost use Rattle.base_tests.specs.Tests.{any_of};
ghost use Rattle.def_transfer.specs.State as State;
ghost use Rattle.state_calls.specs.Calls as Calls;
ghost use Rattle.state_calls.specs.Calls.{outside};
ghost use Rattle.state_calls.specs.Answers.{done_outcome};
ghost use Rattle.state_calls.specs.Plain.{MeansPlain};

use def_effects::Session;
use def_refusals::Verdict;
use state_calls::outside;
use state_refusals::refusal_of;

// Whether an operand is not in the list.
// A phi looks at all of them before it does anything.
fn any_outside(sets: &[u64], operands: &[u32]) -> bool
    ensures { result ≡ any_of (outside sets.now) operands.now }
{
    operands.iter().any(|&i| outside(sets, i))
}

// A place gets the union of its operands' sets, unless that is empty.
#[tactic(auto, using(state_calls::proofs::Laws::More::phi_ends, state_calls::proofs::Laws::More::phi_refused, state_calls::proofs::Laws::Said::done_said, state_means::proofs::Laws::Promises::infer_phi_promise))]
pub fn infer_phi(
    values: &[u64],
    sets: &mut [u64],
    session: Session,
    place: u32,
    operands: &[u32],
) -> Verdict
    ensures { (done_outcome values.now sets.new session result
        ≡ Calls.infer_phi values.now sets.old session place operands.now)
        × MeansPlain false (State.infer_phi place operands.now) values.now sets.old session
        (done_outcome values.now sets.new session result) }
{
    let out = outside(sets, place) || any_outside(sets, operands);
    refusal_of(values, sets, session, out, false)?;
    state_assign::infer_phi(sets, place, operands);
    Ok(())
}
