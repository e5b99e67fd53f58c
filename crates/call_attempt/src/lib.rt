// The run of an instruction: what it may change is saved, and after a refusal put back.
#![tactic(auto)]

ghost use Rattle.std.specs.Prelude.{◌≡◌, Bool, OnErr, length, ◌/◌};
ghost use Rattle.def_effects.specs.declared.Session.{Session as ASession};
ghost use Rattle.lent_world.specs.Promise.{Kept, Does};
ghost use Rattle.def_transfer.specs.Instruction as Instruction;
ghost use Rattle.laws_monad.specs.Answers.{answer};
ghost use Rattle.call_parts.specs.Instructions.{instruction_of};
ghost use Rattle.call_outcome.specs.Calls.{candidate_count, start_run};
ghost use Rattle.call_outcome.specs.Attempts.{at_most, run_or, Ready};
ghost use Rattle.call_undo.specs.Saves.{used};
ghost use Rattle.def_refusals.specs.Verdicts.{class_of};
ghost use Rattle.lent_world.specs.World.{world};
ghost use Rattle.lent_layout.specs.Context.{held, SameSlices};

use call_room::lengths_of;
use call_run::run_instruction;
use call_save::save;
use call_undo::{Used, undo};
use def_effects::{Place, Session};
use def_refusals::{Refusal, Verdict};
use lent_layout::{Context, EFFECT_WORDS};
use lent_work::{Marks, Run};
use lent_world::World;

// How many words a list has, but no more than 8,192.
#[tactic(auto, using(call_outcome::proofs::Laws::Class::most_past, call_outcome::proofs::Laws::Class::most_within))]
fn set_words(sets: &[u64]) -> u32
    ensures { result ≡ at_most 8192 (length sets.now) }
{
    sets.len().min(8192) as u32
}

// How many records a list of candidates has, but no more than 64.
#[tactic(auto, using(call_outcome::proofs::Laws::Class::most_past, call_outcome::proofs::Laws::Class::most_within))]
fn candidate_count(candidates: &[u32]) -> u32
    ensures { result ≡ at_most 64 (candidate_count candidates.now) }
{
    (candidates.len() / EFFECT_WORDS).min(64) as u32
}

// What an instruction has by value as it begins.
// No place initialized, no effect listed, no entry made.
fn start_run(session: Session, flag: bool) -> Run
    ensures { result ≡ start_run session flag }
{
    Run {
        session,
        flag,
        marks: Marks { words: [0u64; 8] },
        listed: 0,
        freeze: 0,
        entries: 0,
    }
}

// How many records of a context are in use.
fn used_of(context: &Context) -> Used
    ensures { result ≡ used (held context.now) }
{
    Used {
        effects: context.effect_count,
        keys: context.key_count,
        diagnostics: context.diagnostic_count,
    }
}

// State and context are saved, the instruction runs, and if it is refused all is put back.
fn run_or_undo(
    world: &mut World,
    candidates: &[u32],
    lvalue: Place,
    own: u32,
    scratch64: &mut [u64],
    scratch32: &mut [u32],
) -> Verdict
    ensures kept { Kept world.old world.new }
    ensures does { (s : ASession) (flag : Bool)
        → world.old.run ≡ start_run s flag
        → Ready world.old.values.now world.old.sets.now (held world.old.context.now) world.old.output.now candidates.now
        scratch64.old scratch32.old
        → Does (Instruction.apply_signature
        (instruction_of candidates.now (candidate_count candidates.now) lvalue own)) world.old world.new result }
    ensures back { OnErr result (world.new.run ≡ world.old.run) }
{
    let sets = &mut *world.sets;
    let n = set_words(sets);
    let values = &mut *world.values;
    let context = &mut *world.context;
    let l = lengths_of(context);
    let u = used_of(context);
    save(values, sets, n, context, l, scratch64, scratch32);
    let start = world.run;
    let count = candidate_count(candidates);
    match run_instruction(world, candidates, count, lvalue, own) {
        Ok(()) => Ok(()),
        Err(refusal) => {
            undo(world, n, l, u, scratch64, scratch32);
            world.run = start;
            Err(refusal)
        }
    }
}

// The same of what a host lends: the world is made of it, with nothing initialized, listed or entered yet.
pub fn attempt(
    values: &mut [u64],
    sets: &mut [u64],
    flag: bool,
    context: &mut Context,
    session: Session,
    candidates: &[u32],
    lvalue: Place,
    own: u32,
    output: &mut [u32],
    scratch64: &mut [u64],
    scratch32: &mut [u32],
) -> Result<Run, Refusal>
    ensures kept { SameSlices context.old context.new }
    ensures does { Ready values.old sets.old (held context.old) output.old candidates.now scratch64.old
        scratch32.old
        → Instruction.apply_signature
        (instruction_of candidates.now (candidate_count candidates.now) lvalue own)
        (world values.old sets.old (held context.old) output.old (start_run session flag))
        ≡ answer (class_of result) tt
        (world values.new sets.new (held context.new) output.new (run_or (start_run session flag) result)) }
{
    let run = start_run(session, flag);
    let mut world = World {
        values,
        sets,
        context,
        output,
        run,
    };
    run_or_undo(&mut world, candidates, lvalue, own, scratch64, scratch32)?;
    Ok(world.run)
}
