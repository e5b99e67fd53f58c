// Assign and ImmutableCapture: what is frozen or copied gets a number of its own under a key, anything else the source's set.
#![tactic(auto)]

ghost use Rattle.std.specs.Prelude.{◌≡◌, List, ℕ};
ghost use Rattle.def_effects.specs.Effects.{AliasingEffect as Effect};
ghost use Rattle.def_transfer.specs.Monad.{ok, M, Done};
ghost use Rattle.def_transfer.specs.Tables.{World as Worlds};
ghost use Rattle.def_transfer.specs.Step as Step;
ghost use Rattle.laws_monad.specs.Answers.{answers};
ghost use Rattle.lent_layout.specs.Context.{ContextWords};
ghost use Rattle.lent_world.specs.World.{lent};
ghost use Rattle.effect_create.specs.Creations.{numbered, assigned, assigning};
ghost use Rattle.effect_parts.specs.Parts.{beside};
ghost use Rattle.lent_world.specs.Promise.{seen, Kept, Does, Untouched};

use def_effects::Place;
use def_kinds::AbstractValue;
use def_refusals::{Refusal, Verdict};
use effect_number::get_or_create_value_id;
use effect_parts::{begin, create, emit, kind, kind_with_span};
use lent_effects::AliasingEffect;
use lent_key_of::two_key;
use lent_keys::WholeKey;
use lent_world::World;

// An ImmutableCapture is listed, unless its source is Primitive or Global.
// The access is recorded without a span.
pub fn capturing_immutably(world: &mut World, from: Place, into: Place)
    ensures kept { Kept world.old world.new }
    ensures does { (again : Effect → M (Worlds lent) Done)
        → Step.capturing_immutably again from into (seen world.old) ≡ ok tt (seen world.new) }
{
    let a = kind(world, from.identifier);
    if a.kind.is_copied() {
        return;
    }
    emit(world, AliasingEffect::ImmutableCapture { from, into }, &[]);
}

// A place gets the number under a key of two places, with a value.
// Assign of what is frozen or copied ends so.
pub fn number_and_create(
    world: &mut World,
    code: u32,
    from: Place,
    into: Place,
    a: AbstractValue,
) -> Verdict
    ensures kept { Kept world.old world.new }
    ensures does { Does (numbered code from into a) world.old world.new result }
{
    let number = get_or_create_value_id(world, WholeKey::new(two_key(code, from, into), &[]))?;
    create(world, into, number, a);
    Ok(())
}

// An Assign of what is not frozen: what is copied gets a number of its own, else the place gets the source's set and the effect is listed.
// Assign of Global or Primitive lists nothing.
pub fn assign_rest(world: &mut World, from: Place, into: Place, a: AbstractValue) -> Verdict
    ensures kept { Kept world.old world.new }
    ensures does { Does (assigned from into a) world.old world.new result }
{
    if a.kind.is_copied() {
        return number_and_create(world, 19, from, into, a);
    }
    state_assign::assign(world.values, world.sets, into.identifier, from.identifier);
    emit(world, AliasingEffect::Assign { from, into }, &[]);
    Ok(())
}

// An Assign begins: its destination is initialized, and the source's kind is looked at, with its span.
// 6 refuses a destination that already began. Context and output list are not looked at: it is the same beside any others.
pub fn begin_assign(world: &mut World, from: Place, into: Place) -> Result<AbstractValue, Refusal>
    ensures kept { Kept world.old world.new }
    ensures untouched { Untouched world.old world.new }
    ensures does { (again : Effect → M (Worlds lent) Done)
        → Step.assigning again from into (seen world.old)
        ≡ answers result (λ a. assigning again from into a (seen world.new)) (seen world.new) }
    ensures elsewhere { (again : Effect → M (Worlds lent) Done) (c : ContextWords) (os : List ℕ)
        → Step.assigning again from into (beside c os world.old)
        ≡ answers result (λ a. assigning again from into a (beside c os world.new)) (beside c os world.new) }
{
    begin(world, into.identifier)?;
    Ok(kind_with_span(world, from.identifier, from.span))
}
