// CreateFunction, as far as it derives no other effect: listed, its context places updated, its number linked to the function; and the captures
// that are gone through afterwards. After the arm for CreateFunction of the Rust.
#![tactic(auto)]

ghost use Rattle.std.specs.Prelude.{◌≡◌};
ghost use Rattle.def_effects.specs.Effects.{AliasingEffect as Effect, Capture};
ghost use Rattle.def_transfer.specs.Monad.{M, Done, each};
ghost use Rattle.def_transfer.specs.Tables.{World as Worlds};
ghost use Rattle.def_transfer.specs.Step as Step;
ghost use Rattle.laws_monad.specs.Answers.{answers};
ghost use Rattle.lent_effects.specs.Records.{captures_of};
ghost use Rattle.lent_world.specs.World.{lent};
ghost use Rattle.lent_world.specs.Promise.{seen, Kept, Does};
ghost use Rattle.effect_captures.specs.NewFunctions.{linked};

use def_effects::Place;
use def_kinds::{AbstractValue, ValueKind};
use def_refusals::Verdict;
use effect_captures::function_kind;
use effect_function_context::{any_ref, update_context};
use effect_number::get_or_create_value_id;
use effect_parts::{any_written, begin, create, emit};
use lent_context::has_tracked_side_effect;
use lent_effects::AliasingEffect;
use lent_key_of::key_of;
use lent_keys::WholeKey;
use lent_links::put_link;
use lent_world::World;

// The second half of a new function: its number, the link to it, and the place that gets it.
// 9 refuses a fresh number at next 512.
fn link_function(
    world: &mut World,
    function: u32,
    into: Place,
    kind: ValueKind,
    taken: &[u32],
) -> Verdict
    ensures kept { Kept world.old world.new }
    ensures does { Does (linked (captures_of taken.now) function into kind) world.old world.new result }
{
    let key = key_of(AliasingEffect::CreateFunction { function, into });
    let number = get_or_create_value_id(world, WholeKey::new(key, taken))?;
    put_link(world.context, number, function);
    create(world, into, number, AbstractValue { kind, reason: 0 });
    Ok(())
}

// A CreateFunction, before its captures are derived: listed, its context places updated, its number linked to the function.
// What its captures and context are is asked before the context places change.
pub fn make_function(world: &mut World, function: u32, into: Place, taken: &[u32]) -> Verdict
    ensures kept { Kept world.old world.new }
    ensures does { (again : Effect → M (Worlds lent) Done)
        → Step.creating_function again (captures_of taken.now) function into (seen world.old)
        ≡ answers result (λ a. each (captures_of taken.now) (λ c. again (Capture c into)) (seen world.new))
        (seen world.new) }
{
    begin(world, into.identifier)?;
    emit(
        world,
        AliasingEffect::CreateFunction { function, into },
        taken,
    );
    let written = any_written(world, taken);
    let context = &mut *world.context;
    let tracked = has_tracked_side_effect(context, function);
    let kind = function_kind(written, tracked, any_ref(world, function));
    update_context(world, function);
    link_function(world, function, into, kind, taken)
}
