// The public calls that ask for the kind of a place: each refuses what document 01 refuses, else it answers what the definition says, and leaves the tables.
// A state is lent as 1,024 words of values and 16 words of sets for each identifier; the session comes and goes by value.
#![tactic(auto)]

ghost use Rattle.std.specs.Prelude.{◌≡◌, false};
ghost use Rattle.def_transfer.specs.State as State;
ghost use Rattle.def_transfer.specs.Step as Step;
ghost use Rattle.state_calls.specs.Calls as Calls;
ghost use Rattle.state_calls.specs.Calls.{used};
ghost use Rattle.state_calls.specs.Answers.{kind_outcome, test_outcome, mutation_outcome};
ghost use Rattle.state_calls.specs.Plain.{MeansPlain};

use def_effects::{MutateVariant, MutationResult, NO_SPAN, Session, Span, is_strict, result_of};
use def_refusals::Refusal;
use state_calls::{KindAnswer, MutationAnswer};
use state_ops;
use state_ops::after_use;
use state_refusals::refusal1;

// The kind of a place, used at a span.
// The first use of an undefined place is recorded in the session.
#[tactic(auto, using(state_calls::proofs::Laws::Call::kind_ends, state_calls::proofs::Laws::Call::kind_refused, state_calls::proofs::Laws::Said::kind_said, state_means::proofs::Laws::Promises::kind_with_span_promise))]
pub fn kind_with_span(
    values: &[u64],
    sets: &[u64],
    session: Session,
    i: u32,
    span: Span,
) -> Result<KindAnswer, Refusal>
    ensures { (kind_outcome values.now sets.now session result
        ≡ Calls.kind_with_span values.now sets.now session i span)
        × MeansPlain false (State.kind_with_span i span) values.now sets.now session
        (kind_outcome values.now sets.now session result) }
{
    refusal1(values, sets, session, i)?;
    let value = state_ops::kind_of(values, sets, i);
    Ok(KindAnswer {
        value,
        session: after_use(sets, session, i, span),
    })
}

// The kind of a place, used without a span.
// The first use of an undefined place is recorded in the session, with no span.
#[tactic(auto, using(state_calls::proofs::Laws::Call::kind_plain, state_means::proofs::Laws::Promises::kind_promise))]
pub fn kind(values: &[u64], sets: &[u64], session: Session, i: u32) -> Result<KindAnswer, Refusal>
    ensures { (kind_outcome values.now sets.now session result ≡ Calls.kind values.now sets.now session i)
        × MeansPlain false (State.kind i) values.now sets.now session
        (kind_outcome values.now sets.now session result) }
{
    kind_with_span(values, sets, session, i, NO_SPAN)
}

// Whether a place may be written: its kind is Mutable or Context.
#[tactic(auto, using(state_calls::proofs::Laws::Call::write_ends, state_calls::proofs::Laws::Call::write_refused, state_calls::proofs::Laws::Said::test_said, state_means::proofs::Laws::Promises::may_write_promise))]
pub fn may_write(values: &[u64], sets: &[u64], session: Session, i: u32) -> Result<bool, Refusal>
    ensures { (test_outcome values.now sets.now session result
        ≡ Calls.may_write values.now sets.now session i)
        × MeansPlain false (State.may_write i) values.now sets.now session
        (test_outcome values.now sets.now session result) }
{
    refusal1(values, sets, session, i)?;
    let found = state_ops::kind_of(values, sets, i);
    Ok(found.kind.is_writable())
}

// What a mutation of a place comes to, by its variant, its ref flag and its kind.
// The kind of a ref is not asked for; else the first use of an undefined place is recorded.
#[tactic(auto, using(state_calls::proofs::Laws::More::mutate_ends, state_calls::proofs::Laws::More::mutate_refused, state_calls::proofs::Laws::More::mutate_of_ref, state_calls::proofs::Laws::Said::mutation_said, state_means::proofs::Laws::Promises::mutate_promise))]
pub fn mutate(
    values: &[u64],
    sets: &[u64],
    session: Session,
    ref_flag: bool,
    variant: MutateVariant,
    i: u32,
    span: Span,
) -> Result<MutationAnswer, Refusal>
    ensures { (mutation_outcome values.now sets.now session result
        ≡ Calls.mutate values.now sets.now session ref_flag variant i span)
        × MeansPlain ref_flag (Step.mutate variant (used i span)) values.now sets.now session
        (mutation_outcome values.now sets.now session result) }
{
    refusal1(values, sets, session, i)?;
    if ref_flag {
        return Ok(MutationAnswer {
            result: MutationResult::MutateRef,
            session,
        });
    }
    let kind = state_ops::kind_of(values, sets, i).kind;
    Ok(MutationAnswer {
        result: result_of(is_strict(variant), kind),
        session: after_use(sets, session, i, span),
    })
}
