// Freeze: the place is frozen and listed, and the values of it walked where either option is on. After the arm for Freeze of the Rust.
#![tactic(auto)]

ghost use Rattle.std.specs.Prelude.{◌≡◌};
ghost use Rattle.def_effects.specs.Effects.{AliasingEffect as Effect};
ghost use Rattle.def_transfer.specs.Monad.{M, Done};
ghost use Rattle.def_transfer.specs.Tables.{World as Worlds};
ghost use Rattle.base_sets.specs.Members.{values_of};
ghost use Rattle.def_transfer.specs.Step as Step;
ghost use Rattle.def_transfer.specs.Walk as Walk;
ghost use Rattle.lent_sets.specs.Rows.{set_at};
ghost use Rattle.lent_world.specs.World.{lent};
ghost use Rattle.lent_world.specs.Promise.{Kept, Does};

use def_effects::Place;
use def_refusals::Verdict;
use effect_parts::emit;
use effect_walk::{freeze_function_captures_transitive, value_from};
use lent_context::is_transitive;
use lent_effects::AliasingEffect;
use lent_world::World;
use state_freeze::freeze;

// The values of a place are walked; each Freeze starts from zero.
// "It enters each value of the frozen place."
pub fn walk(world: &mut World, i: u32, reason: u32) -> Verdict
    ensures kept { Kept world.old world.new }
    ensures does { Does (Walk.walk (values_of (set_at world.old.sets.now i)) reason) world.old world.new result }
{
    world.run.freeze = 0;
    let mut from = 1;
    while let Some(m) = value_from(world, i, from) {
        freeze_function_captures_transitive(world, reason, m)?;
        from = m + 1;
    }
    Ok(())
}

// A Freeze that acts is listed, and its values are walked where either option is on; one that does not act does nothing.
pub fn freezing(world: &mut World, place: Place, reason: u32) -> Verdict
    ensures kept { Kept world.old world.new }
    ensures does { (again : Effect → M (Worlds lent) Done)
        → Does (Step.freezing again place reason) world.old world.new result }
{
    let values = &mut *world.values;
    let sets = &mut *world.sets;
    if !freeze(values, sets, place.identifier, reason) {
        return Ok(());
    }
    emit(world, AliasingEffect::Freeze { place, reason }, &[]);
    let context = &mut *world.context;
    if !is_transitive(context) {
        return Ok(());
    }
    walk(world, place.identifier, reason)
}
