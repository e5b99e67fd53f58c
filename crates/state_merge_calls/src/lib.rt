// The public calls on two lent states: each refuses what document 01 refuses and then leaves all as it was, else it does what the definition says.
// A state is lent as 1,024 words of values and 16 words of sets for each identifier, as many in both; the session and a state's function-expression flag come and go by value.
#![tactic(auto)]

ghost use Rattle.std.specs.Prelude.{◌≡◌};
ghost use Rattle.state_pairs.specs.MergeCalls as MergeCalls;
ghost use Rattle.state_pairs.specs.MergeCalls.{above_said, merge_said, from_said, merge_answer, session_answer};
ghost use Rattle.state_pairs.specs.Promise.{merge_of, merge_from_of};
ghost use Rattle.refuse_entries.specs.Words.{entries};
ghost use Rattle.state_pairs.specs.Plain.{AbovePlain, MergesPlain, MergesFromPlain};

use def_effects::{Session, Span};
use def_refusals::Refusal;
use refuse_class::lower;
use state_merge;
use state_pairs::{SessionAnswer, pair_refusal, third_refusal};

// Whether the first state is above or equal to the second.
// "One state is above or equal to another if it has each value entry and each defined identifier of the other"; flag and first access don't count.
pub fn is_above(
    values1: &[u64],
    sets1: &[u64],
    values2: &[u64],
    sets2: &[u64],
    session: Session,
) -> Result<bool, Refusal>
    ensures { (above_said result
        ≡ MergeCalls.is_above values1.now sets1.now values2.now sets2.now session)
        × AbovePlain (entries values1.now sets1.now) (entries values2.now sets2.now)
        (above_said result) }
{
    pair_refusal(values1, sets1, values2, sets2, session)?;
    Ok(state_adds::is_above(values1, sets1, values2, sets2))
}

// The join of two states is written to a third; it comes with the third state's flag where the second adds to the first.
// "`merge` writes a third lent state, which is empty at None and untouched by a refusal; its two inputs and the session stay."
pub fn merge(
    values1: &[u64],
    sets1: &[u64],
    flag1: bool,
    values2: &[u64],
    sets2: &[u64],
    flag2: bool,
    session: Session,
    values3: &mut [u64],
    sets3: &mut [u64],
) -> Result<Option<bool>, Refusal>
    ensures { (merge_said result
        ≡ merge_answer flag1 flag2
        (merge_of values1.now sets1.now values2.now sets2.now session values3.old sets3.old))
        × (values3.new ≡ (merge_of values1.now sets1.now values2.now sets2.now session values3.old sets3.old).values)
        × (sets3.new ≡ (merge_of values1.now sets1.now values2.now sets2.now session values3.old sets3.old).sets)
        × MergesPlain (entries values1.now sets1.now) (entries values2.now sets2.now)
        (merge_said result) (entries values3.new sets3.new) }
{
    let third = third_refusal(sets1, values3, sets3);
    let both = pair_refusal(values1, sets1, values2, sets2, session);
    lower(third, both)?;
    let adds = state_merge::merge_into(values1, sets1, values2, sets2, values3, sets3);
    Ok(adds.then_some(flag1))
}

// The second state is joined onto the first, which keeps its flag, and the session's access is cleared.
// "As in release, the access is cleared"; a refusal leaves the first state and the session as they were.
pub fn merge_from(
    values1: &mut [u64],
    sets1: &mut [u64],
    flag1: bool,
    values2: &[u64],
    sets2: &[u64],
    flag2: bool,
    session: Session,
) -> Result<SessionAnswer, Refusal>
    ensures { (from_said session flag1 result
        ≡ session_answer flag1 flag2 (merge_from_of values1.old sets1.old values2.now sets2.now session))
        × (values1.new ≡ (merge_from_of values1.old sets1.old values2.now sets2.now session).values)
        × (sets1.new ≡ (merge_from_of values1.old sets1.old values2.now sets2.now session).sets)
        × MergesFromPlain (entries values1.old sets1.old) (entries values2.now sets2.now)
        (from_said session flag1 result) (entries values1.new sets1.new) }
{
    pair_refusal(values1, sets1, values2, sets2, session)?;
    state_merge_lists::merge_values(values1, values2);
    state_merge_lists::merge_sets(sets1, sets2);
    let cleared = Session {
        next: session.next,
        access: 0,
        span: Span { start: 0, end: 0 },
        entries: session.entries,
    };
    Ok(SessionAnswer {
        session: cleared,
        flag: flag1,
    })
}
