// Which refusal, of those up to Apply, all that the call for an instruction is lent earns.
#![tactic(auto)]

ghost use Rattle.std.specs.Prelude.{◌≡◌, Bool, List, ℕ, length, ◌/◌};
ghost use Rattle.def_refusals.specs.Verdicts.{class_of};
ghost use Rattle.refuse_instruction.specs.EffectClasses.{instruction_class};
ghost use Rattle.call_outcome.specs.Calls.{call, lengths_wrong, call_class};
ghost use Rattle.def_effects.specs.declared.Place.{Place as APlace};
ghost use Rattle.def_effects.specs.declared.Session.{Session as ASession};
ghost use Rattle.call_means.specs.Promise.{lent_call};
ghost use Rattle.lent_layout.specs.Layout as Layout;
ghost use Rattle.lent_layout.specs.Context.{held};

use call_room::{context_wrong, lengths_of, room_for, saved_words};
use def_effects::{Place, Session};
use def_refusals::{Refusal, Verdict};
use lent_layout::{Context, EFFECT_WORDS, OUTPUT_WORDS};
use refuse_class::lower;
use refuse_context::context_class;
use refuse_instruction::{Counts, instruction_class};
use refuse_state::{state_refusal, wrong_lengths};

// Whether a lent list has the wrong length, those of the state apart.
// A context with room for what the candidates can intern, records of candidates, 1,120 records of output, scratch for the state and for the
// tables of the context that may be written into.
#[tactic(auto, unfolding(call_outcome::specs::Calls::lengths_wrong))]
fn lengths_wrong(
    sets: &[u64],
    context: &Context,
    candidates: &[u32],
    output: &[u32],
    scratch64: &[u64],
    scratch32: &[u32],
) -> bool
    ensures { (vs : List ℕ) (flag : Bool) (s : ASession) (p : APlace) (own : ℕ)
        → result ≡ lengths_wrong
        (call vs sets.now flag (held context.now) s candidates.now p own output.now scratch64.now scratch32.now) }
{
    let room = room_for(context, candidates);
    let identifiers = (sets.len() / 16).min(513) as u32;
    context_wrong(context, identifiers, room)
        || candidates.len() % EFFECT_WORDS != 0
        || output.len() != OUTPUT_WORDS
        || scratch32.len() != saved_words(lengths_of(context))
        || scratch64.len() < 1024
        || scratch64.len() - 1024 != sets.len()
}

// What an instruction earns, with as many candidates as there are records.
// More than 64 are too many, however many there are.
fn lent_class(
    context: &Context,
    candidates: &[u32],
    lvalue: Place,
    own: u32,
    counts: Counts,
) -> Verdict
    ensures { class_of result
        ≡ instruction_class counts.identifiers counts.functions (held context.now) candidates.now
        (length candidates.now / Layout.effect_words) lvalue own }
{
    let n = candidates.len() / EFFECT_WORDS;
    if n > 64 {
        return Err(Refusal::Count);
    }
    instruction_class(context, candidates, n as u32, lvalue, own, counts)
}

// The lowest that anything lent earns: lengths, then state and session, context, instruction.
// "Order 1 to 5 over the whole input": a list of the wrong length decides alone.
pub fn call_class(
    values: &[u64],
    sets: &[u64],
    flag: bool,
    context: &Context,
    session: Session,
    candidates: &[u32],
    lvalue: Place,
    own: u32,
    output: &[u32],
    scratch64: &[u64],
    scratch32: &[u32],
) -> Verdict
    ensures { class_of result
        ≡ call_class
        (lent_call values.now sets.now flag (held context.now) session candidates.now lvalue own output.now scratch64.now
        scratch32.now) }
{
    if lengths_wrong(sets, context, candidates, output, scratch64, scratch32)
        || wrong_lengths(values, sets)
    {
        return Err(Refusal::Length);
    }
    let state = state_refusal(values, sets, session.next, session.access);
    let identifiers = (sets.len() / 16) as u32;
    let functions = context.function_count;
    let counts = Counts {
        identifiers,
        functions,
    };
    let tables = context_class(context, identifiers, session.next);
    let instruction = lent_class(context, candidates, lvalue, own, counts);
    lower(state, lower(tables, instruction))
}
