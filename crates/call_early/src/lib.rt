// The early errors of the own function: places that it mutates inside and that are defined and Frozen are reported before any candidate.
#![tactic(auto)]

ghost use Rattle.def_transfer.specs.Monad.{each};
ghost use Rattle.def_transfer.specs.Instruction as Instruction;
ghost use Rattle.call_parts.specs.Instructions.{inside_places};
ghost use Rattle.def_transfer.specs.Instruction.{own_of};
ghost use Rattle.lent_world.specs.Promise.{Kept, Does};

use call_parts::{copy_inside, is_near};
use def_effects::Place;
use def_refusals::Verdict;
use effect_diagnostic::intern_diagnostic;
use effect_parts::emit;
use effect_reports::modified_diagnostic;
use lent_context::name_of;
use lent_effects::AliasingEffect;
use lent_layout::{INSIDE, INSIDE_WORDS};
use lent_sets::is_defined;
use lent_world::World;
use state_ops::kind_of;

// A place that the own function mutates inside is reported if it is defined and Frozen: a MutateFrozen, always message case 0.
// It is not interned, and no access is recorded.
pub fn report_early(world: &mut World, p: Place) -> Verdict
    ensures kept { Kept world.old world.new }
    ensures does { Does (Instruction.report_early p) world.old world.new result }
{
    let values = &mut *world.values;
    let sets = &mut *world.sets;
    if !is_defined(sets, p.identifier) {
        return Ok(());
    }
    let a = kind_of(values, sets, p.identifier);
    if !a.kind.is_frozen() {
        return Ok(());
    }
    let context = &mut *world.context;
    let name = name_of(context, p.identifier);
    let error = intern_diagnostic(world, modified_diagnostic(p, name, a))?;
    emit(world, AliasingEffect::MutateFrozen { place: p, error }, &[]);
    Ok(())
}

// So a place of the own function, if it is of that function's context.
pub fn early_error(world: &mut World, f: u32, p: Place) -> Verdict
    ensures kept { Kept world.old world.new }
    ensures does { Does (Instruction.early_error f p) world.old world.new result }
{
    let context = &mut *world.context;
    if !is_near(context, f, p.identifier) {
        return Ok(());
    }
    report_early(world, p)
}

// The early errors of some places, in order; they stand in a slice of 161 words.
// Once per place of the run, before any candidate.
pub fn early_all(world: &mut World, f: u32, places: &[u32]) -> Verdict
    ensures kept { Kept world.old world.new }
    ensures does { Does (each (inside_places places.now) (Instruction.early_error f)) world.old
        world.new result }
{
    let n = INSIDE.field(places, 0, 0);
    for k in 0..n {
        early_error(world, f, INSIDE.place_in(places, 0, 1, k))?;
    }
    Ok(())
}

// The early errors of the own function: 0 for none, else 1 + the function.
// "The early MutateFrozen of a function instruction."
pub fn early_errors(world: &mut World, own: u32) -> Verdict
    ensures kept { Kept world.old world.new }
    ensures does { Does (Instruction.early_errors (own_of own)) world.old world.new result }
{
    if own == 0 {
        return Ok(());
    }
    let f = own - 1;
    let mut places = [0u32; INSIDE_WORDS];
    let context = &mut *world.context;
    copy_inside(context, f, &mut places);
    early_all(world, f, &places)
}
