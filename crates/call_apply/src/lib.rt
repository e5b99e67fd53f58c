// The call for one instruction: `apply_signature` of the Rust over lent tables, with demands 1, 2 and 3 in its promise.
// It tests all that it is lent, saves, runs, and after a refusal puts everything back.
#![tactic(auto)]

ghost use Rattle.call_means.specs.Promise.{lent_call, left_by, Meets};
ghost use Rattle.call_outcome.specs.Calls.{told};
ghost use Rattle.lent_layout.specs.Context.{held, SameSlices};

use call_attempt::attempt;
use call_class::call_class;
use call_outcome::Applied;
use def_effects::{Place, Session};
use def_refusals::Refusal;
use lent_copies::clear_scratch;
use lent_layout::Context;

// The call for one instruction. Any lists with any numbers in them may be lent.
// Its promise: what it answers and leaves is the definition's `outcome` of what it was lent, refusals 1 to 11 included (demands 1 and 2);
// and every other run of it, lent the same instruction with equal context and session from an accepted state that agrees on the instruction's reach,
// ends alike, and touches nothing outside that reach (demand 3).
pub fn apply_signature(
    values: &mut [u64],
    sets: &mut [u64],
    flag: bool,
    context: &mut Context,
    session: Session,
    candidates: &[u32],
    lvalue: Place,
    own: u32,
    output: &mut [u32],
    scratch64: &mut [u64],
    scratch32: &mut [u32],
) -> Result<Applied, Refusal>
    ensures kept { SameSlices context.old context.new }
    ensures meets { Meets
        (lent_call values.old sets.old flag (held context.old) session candidates.now lvalue own output.old scratch64.old
        scratch32.old)
        (left_by (told session flag result) values.new sets.new (held context.new) output.new scratch64.new scratch32.new) }
{
    let verdict = call_class(
        values, sets, flag, context, session, candidates, lvalue, own, output, scratch64, scratch32,
    );
    output.fill(0);
    if let Err(refusal) = verdict {
        clear_scratch(scratch64, scratch32);
        return Err(refusal);
    }
    let ran = attempt(
        values, sets, flag, context, session, candidates, lvalue, own, output, scratch64, scratch32,
    );
    clear_scratch(scratch64, scratch32);
    let run = ran?;
    Ok(Applied {
        count: run.listed,
        entries: run.entries,
        session: run.session,
        flag: run.flag,
    })
}
