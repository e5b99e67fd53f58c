// The call for one instruction with the session lent by `&mut`, as document 01 has it: a thin function over `call_apply::apply_signature`.
// All work is below; here the session is read, and written back.
#![tactic(auto)]

ghost use Rattle.call_apply_lent.specs.Answers.{told_beside};
ghost use Rattle.call_means.specs.Promise.{lent_call, left_by, Meets};
ghost use Rattle.lent_layout.specs.Context.{held, SameSlices};

use call_apply::apply_signature;
use def_effects::{Place, Session};
use def_refusals::Refusal;
use lent_layout::Context;

// What the call answers beside the session: how many effects the output list holds, the entries of all Freezes of the instruction,
// the state's function-expression flag.
#[derive(Clone, Copy)]
pub struct Answer {
    pub count: u32,
    pub entries: u32,
    pub flag: bool,
}

// The call for one instruction, its session lent by `&mut`: "changed by few thin functions above covered ones".
// Its promise is that of `call_apply::apply_signature`, with the session at entry and at exit.
pub fn apply(
    values: &mut [u64],
    sets: &mut [u64],
    flag: bool,
    context: &mut Context,
    session: &mut Session,
    candidates: &[u32],
    lvalue: Place,
    own: u32,
    output: &mut [u32],
    scratch64: &mut [u64],
    scratch32: &mut [u32],
) -> Result<Answer, Refusal>
    ensures kept { SameSlices context.old context.new }
    ensures meets { Meets
        (lent_call values.old sets.old flag (held context.old) session.old candidates.now lvalue own output.old scratch64.old
        scratch32.old)
        (left_by (told_beside session.new flag result) values.new sets.new (held context.new) output.new scratch64.new
        scratch32.new) }
{
    let out = apply_signature(
        values, sets, flag, context, *session, candidates, lvalue, own, output, scratch64,
        scratch32,
    )?;
    *session = out.session;
    Ok(Answer {
        count: out.count,
        entries: out.entries,
        flag: out.flag,
    })
}
