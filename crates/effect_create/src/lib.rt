// What initializes a place: Create, CreateFrom and Assign, as far as they derive no other effect. After the arms for them of the Rust.
#![tactic(auto)]

ghost use Rattle.std.specs.Prelude.{◌≡◌, List};
ghost use Rattle.def_kinds.specs.Reasons as Reasons;
ghost use Rattle.def_effects.specs.declared.Place.{Place as APlace};
ghost use Rattle.def_effects.specs.Effects.{AliasingEffect as Effect, CreateFrom};
ghost use Rattle.def_transfer.specs.Monad.{M, Done};
ghost use Rattle.def_transfer.specs.Tables.{World as Worlds};
ghost use Rattle.def_transfer.specs.Step as Step;
ghost use Rattle.laws_monad.specs.Answers.{answers};
ghost use Rattle.lent_world.specs.World.{lent};
ghost use Rattle.effect_acts.specs.Acts.{follow};
ghost use Rattle.lent_world.specs.Promise.{seen, Kept, Does};

use def_effects::Place;
use def_kinds::{AbstractValue, ValueKind, has_reason, single};
use def_refusals::{Refusal, Verdict};
use effect_acts::Next;
use effect_number::get_or_create_value_id;
use effect_parts::{begin, create, emit, kind};
use lent_effects::AliasingEffect;
use lent_key_of::{key_of, two_key};
use lent_keys::WholeKey;
use lent_world::World;

// The first reason of a set, in their order; Other for none.
// A listed Create shows one reason.
pub fn primary_reason(s: u32) -> u32
    ensures { result ≡ Reasons.primary_reason s }
{
    (0..11).find(|&n| has_reason(s, n)).unwrap_or(11)
}

// A Create: its place begins, gets a number and the kind with that one reason, and the effect is listed.
// 6 refuses a place that already began, 9 a fresh number at next 512.
pub fn creating(world: &mut World, into: Place, k: ValueKind, reason: u32) -> Verdict
    ensures kept { Kept world.old world.new }
    ensures does { (again : Effect → M (Worlds lent) Done)
        → Does (Step.creating again into k reason) world.old world.new result }
{
    begin(world, into.identifier)?;
    let e = AliasingEffect::Create {
        into,
        kind: k,
        reason,
    };
    let number = get_or_create_value_id(world, WholeKey::new(key_of(e), &[]))?;
    let value = AbstractValue {
        kind: k,
        reason: single(reason),
    };
    create(world, into, number, value);
    emit(world, e, &[]);
    Ok(())
}

// What a CreateFrom lists, by the source's kind: a Create of what is copied or frozen, else the effect itself; what is frozen derives an ImmutableCapture.
// "The Create that CreateFrom emits" is not interned.
pub fn list_created(world: &mut World, from: Place, into: Place, a: AbstractValue) -> Next
    ensures kept { Kept world.old world.new }
    ensures does { (again : Effect → M (Worlds lent) Done) (ps : List APlace)
        → Step.list_created again from into a (seen world.old)
        ≡ follow again (CreateFrom from into) ps result (seen world.new) }
{
    let reason = primary_reason(a.reason);
    let created = AliasingEffect::Create {
        into,
        kind: a.kind,
        reason,
    };
    if a.kind.is_copied() {
        emit(world, created, &[]);
        return Next::Nothing;
    }
    if a.kind.is_frozen() {
        emit(world, created, &[]);
        return Next::Derived(AliasingEffect::ImmutableCapture { from, into });
    }
    Next::Itself
}

// A CreateFrom: its place begins, the source's kind is looked at without a span, and the place gets a number with that kind and those reasons.
// 6 refuses a place that already began, 9 a fresh number at next 512.
pub fn create_from(world: &mut World, from: Place, into: Place) -> Result<Next, Refusal>
    ensures kept { Kept world.old world.new }
    ensures does { (again : Effect → M (Worlds lent) Done) (ps : List APlace)
        → Step.creating_from again from into (seen world.old)
        ≡ answers result (λ next. follow again (CreateFrom from into) ps next (seen world.new)) (seen world.new) }
{
    begin(world, into.identifier)?;
    let a = kind(world, from.identifier);
    let number = get_or_create_value_id(world, WholeKey::new(two_key(10, from, into), &[]))?;
    create(world, into, number, a);
    Ok(list_created(world, from, into, a))
}
