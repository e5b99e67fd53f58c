// The step of an effect, and of those that it derives, at a falling depth: the step and the functions for the effects that derive others
// call each other. After apply_effect of the Rust.
#![tactic(auto)]

ghost use Rattle.std.specs.Prelude.{◌≡◌};
ghost use Rattle.def_effects.specs.Effects.{Capture};
ghost use Rattle.def_transfer.specs.Monad.{each};
ghost use Rattle.def_transfer.specs.Step as Step;
ghost use Rattle.lent_effects.specs.Records.{effect_with, captures_of};
ghost use Rattle.effect_intern.specs.Interning.{chosen};
ghost use Rattle.effect_acts.specs.Acts as Acts;
ghost use Rattle.effect_flow.specs.Flows.{flows};
ghost use Rattle.lent_world.specs.Promise.{Kept, Does};
ghost use Rattle.lent_layout.specs.Context.{held};

use def_effects::{MutateVariant, Place};
use def_refusals::{Refusal, Verdict};
use effect_acts::{Act, FlowKind, Next, act_of};
use effect_assign::{assign_rest, begin_assign, number_and_create};
use effect_captures::choose_captures;
use effect_create::create_from;
use effect_flow::flow;
use effect_function::make_function;
use effect_intern::intern_effect;
use effect_mutate::mutation;
use effect_parts::emit;
use effect_plain::plain;
use lent_effects::AliasingEffect;
use lent_layout::{ONE_RUN, RUN_WORDS};
use lent_world::World;

// What comes next: nothing, the effect itself is listed, or a derived effect goes through the same step.
// The last part of each function below.
#[cycle(apply_effect)]
pub fn follow(
    world: &mut World,
    depth: u32,
    e: AliasingEffect,
    captures: &[u32],
    next: Next,
) -> Verdict
    ensures kept { Kept world.old world.new }
    ensures does { Does (Acts.follow (Step.apply_effect depth) (effect_with e (captures_of captures.now))
        (captures_of captures.now) next) world.old world.new result }
{
    match next {
        Next::Nothing => Ok(()),
        Next::Itself => {
            emit(world, e, captures);
            Ok(())
        }
        Next::Derived(x) => apply_effect(world, depth, x, captures),
    }
}

// Capture, Alias and MaybeAlias: an ImmutableCapture or a MaybeAlias may be derived.
// 7 refuses an Alias into a place that was not initialized in this instruction.
#[cycle(apply_effect)]
pub fn capturing(
    world: &mut World,
    depth: u32,
    kind: FlowKind,
    from: Place,
    into: Place,
    e: AliasingEffect,
    captures: &[u32],
) -> Verdict
    ensures kept { Kept world.old world.new }
    ensures does { Does (flows (Step.apply_effect depth) kind (effect_with e (captures_of captures.now)) from
        into) world.old world.new result }
{
    let next = flow(world, kind, from, into)?;
    follow(world, depth, e, captures, next)
}

// A mutation: a MutateFrozen or a MutateGlobal may be derived.
// 10 refuses a 257th diagnostic or instance.
#[cycle(apply_effect)]
pub fn mutating(
    world: &mut World,
    depth: u32,
    variant: MutateVariant,
    place: Place,
    e: AliasingEffect,
    captures: &[u32],
) -> Verdict
    ensures kept { Kept world.old world.new }
    ensures does { Does (Step.mutating (Step.apply_effect depth) variant
        (effect_with e (captures_of captures.now)) place) world.old world.new result }
{
    let next = mutation(world, variant, place)?;
    follow(world, depth, e, captures, next)
}

// CreateFrom: an ImmutableCapture may be derived.
// 6 refuses a place that already began, 9 a fresh number at next 512.
#[cycle(apply_effect)]
pub fn creating_from(world: &mut World, depth: u32, from: Place, into: Place) -> Verdict
    ensures kept { Kept world.old world.new }
    ensures does { Does (Step.creating_from (Step.apply_effect depth) from into) world.old world.new result }
{
    let next = create_from(world, from, into)?;
    follow(
        world,
        depth,
        AliasingEffect::CreateFrom { from, into },
        &[],
        next,
    )
}

// Assign: what is frozen is captured first, and takes its number afterwards.
// 6 refuses a place that already began, 9 a fresh number at next 512.
#[cycle(apply_effect)]
pub fn assigning(world: &mut World, depth: u32, from: Place, into: Place) -> Verdict
    ensures kept { Kept world.old world.new }
    ensures does { Does (Step.assigning (Step.apply_effect depth) from into) world.old world.new result }
{
    let a = begin_assign(world, from, into)?;
    if a.kind.is_frozen() {
        apply_effect(
            world,
            depth,
            AliasingEffect::ImmutableCapture { from, into },
            &[],
        )?;
        return number_and_create(world, 18, from, into, a);
    }
    assign_rest(world, from, into, a)
}

// Each capture of a new function is derived, in order.
// "CreateFunction is listed before its Captures."
#[cycle(apply_effect)]
pub fn capture_all(world: &mut World, depth: u32, into: Place, captures: &[u32]) -> Verdict
    ensures kept { Kept world.old world.new }
    ensures does { Does (each (captures_of captures.now) (λ c. Step.apply_effect depth (Capture c into)))
        world.old world.new result }
{
    let n = ONE_RUN.field(captures, 0, 0);
    for k in 0..n {
        let from = ONE_RUN.place_in(captures, 0, 1, k);
        apply_effect(world, depth, AliasingEffect::Capture { from, into }, &[])?;
    }
    Ok(())
}

// CreateFunction: it is made and listed, then its captures are derived.
// 6 refuses a place that already began, 9 a fresh number at next 512.
#[cycle(apply_effect)]
pub fn creating_function(
    world: &mut World,
    depth: u32,
    function: u32,
    into: Place,
    taken: &[u32],
) -> Verdict
    ensures kept { Kept world.old world.new }
    ensures does { Does (Step.creating_function (Step.apply_effect depth) (captures_of taken.now) function into)
        world.old world.new result }
{
    make_function(world, function, into, taken)?;
    capture_all(world, depth, into, taken)
}

// The same with the captures of the interned effect, which are copied first, since the table changes.
// Those of the table's record where it was found, else those given.
#[cycle(apply_effect)]
pub fn creating_chosen(
    world: &mut World,
    depth: u32,
    function: u32,
    into: Place,
    found: Option<u32>,
    captures: &[u32],
) -> Verdict
    ensures kept { Kept world.old world.new }
    ensures does { Does (Step.creating_function (Step.apply_effect depth)
        (chosen (held world.old.context.now) found (captures_of captures.now)) function into)
        world.old world.new result }
{
    let mut taken = [0u32; RUN_WORDS];
    let context = &mut *world.context;
    choose_captures(context, found, captures, &mut taken);
    creating_function(world, depth, function, into, &taken)
}

// The step of an effect: it is interned, and what stands for it acts; the depth of derivation falls.
// "A derived effect goes through the same step as a candidate"; interning comes before the step's own tests.
#[cycle(apply_effect)]
pub fn apply_effect(world: &mut World, depth: u32, e: AliasingEffect, captures: &[u32]) -> Verdict
    ensures kept { Kept world.old world.new }
    ensures does { Does (Step.apply_effect depth (effect_with e (captures_of captures.now))) world.old world.new
        result }
{
    if depth == 0 {
        return Err(Refusal::Depth);
    }
    let interned = intern_effect(world, e, captures)?;
    let x = interned.effect;
    match act_of(x) {
        Act::Plain => plain(world, x),
        Act::Mutating { variant, place } => mutating(world, depth - 1, variant, place, x, captures),
        Act::Flowing { kind, from, into } => capturing(
            world,
            depth - 1,
            kind,
            from,
            into,
            x,
            captures,
        ),
        Act::Assigning { from, into } => assigning(world, depth - 1, from, into),
        Act::CreatingFrom { from, into } => creating_from(world, depth - 1, from, into),
        Act::CreatingFunction { function, into } => creating_chosen(
            world,
            depth - 1,
            function,
            into,
            interned.found,
            captures,
        ),
    }
}
