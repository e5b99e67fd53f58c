// The parts of a step that do not change the context: an effect is listed, a place begins, the kind of a place with its first undefined access,
// a place gets a value. Each says by one equation what the definition does in the world of lent lists. After apply_effect of the Rust.
#![tactic(auto)]

ghost use Rattle.std.specs.Prelude.{◌≡◌};
ghost use Rattle.def_transfer.specs.Monad.{ok};
ghost use Rattle.def_transfer.specs.State as State;
ghost use Rattle.def_transfer.specs.Context as Context;
ghost use Rattle.def_transfer.specs.Step as Step;
ghost use Rattle.lent_values.specs.Cells.{value_at};
ghost use Rattle.lent_sets.specs.Rows.{set_at};
ghost use Rattle.lent_effects.specs.Records.{effect_with, captures_of};
ghost use Rattle.lent_world.specs.Promise.{seen, Kept, Does, Untouched};

use def_effects::{NO_SPAN, Place, Span};
use def_kinds::AbstractValue;
use def_refusals::{Refusal, Verdict};
use lent_effect_write::put_effect;
use lent_effects::AliasingEffect;
use lent_layout::{ONE_RUN, OUTPUT};
use lent_set_writes::define;
use lent_sets::is_defined;
use lent_values::put_value;
use lent_work::{is_marked, mark};
use lent_world::World;
use state_ops::{after_use, kind_of};

// An effect is listed: it goes to the record after the last.
// An instruction lists 1,120 at most, so that the list holds all of them, and a word counts them.
pub fn emit(world: &mut World, e: AliasingEffect, captures: &[u32])
    ensures kept { Kept world.old world.new }
    ensures does { Context.emit (effect_with e (captures_of captures.now)) (seen world.old) ≡ ok tt (seen world.new) }
{
    if world.run.listed >= 4294967295 {
        return;
    }
    put_effect(OUTPUT, world.output, world.run.listed as usize, e, captures);
    world.run.listed += 1;
}

// A place is initialized in this instruction; one that already was is refused with 6.
// "Create, CreateFrom, CreateFunction or Assign into a place already initialized in this instruction."
pub fn begin(world: &mut World, i: u32) -> Verdict
    ensures kept { Kept world.old world.new }
    ensures untouched { Untouched world.old world.new }
    ensures does { Does (Context.begin i) world.old world.new result }
{
    if is_marked(world.run.marks, i) {
        return Err(Refusal::Begun);
    }
    world.run.marks = mark(world.run.marks, i);
    Ok(())
}

// The kind of a place, and no access recorded.
fn peek(world: &World, i: u32) -> AbstractValue
    ensures { result ≡ State.kind_of (value_at world.now.values.now) (set_at world.now.sets.now i) }
{
    kind_of(world.values, world.sets, i)
}

// The kind of a place, used at a span; the first use of an undefined place is recorded.
// This is kind_with_span of the Rust.
pub fn kind_with_span(world: &mut World, i: u32, span: Span) -> AbstractValue
    ensures kept { Kept world.old world.new }
    ensures untouched { Untouched world.old world.new }
    ensures does { State.kind_with_span i span (seen world.old) ≡ ok result (seen world.new) }
{
    let session = world.run.session;
    let sets = &mut *world.sets;
    world.run.session = after_use(sets, session, i, span);
    peek(world, i)
}

// The kind of a place, used without a span.
// ImmutableCapture and CreateFrom ask so.
pub fn kind(world: &mut World, i: u32) -> AbstractValue
    ensures kept { Kept world.old world.new }
    ensures untouched { Untouched world.old world.new }
    ensures does { State.kind i (seen world.old) ≡ ok result (seen world.new) }
{
    kind_with_span(world, i, NO_SPAN)
}

// A place gets one value, of that kind and those reasons.
// initialize and define of the Rust.
pub fn create(world: &mut World, into: Place, v: u32, a: AbstractValue)
    ensures kept { Kept world.old world.new }
    ensures does { Step.create into v a (seen world.old) ≡ ok tt (seen world.new) }
{
    put_value(world.values, v as usize, a);
    define(world.sets, into.identifier, v);
}

// Whether a place is defined and can be written; no access is recorded.
// A captured place that can makes a function Mutable.
pub fn is_written(world: &World, p: Place) -> bool
    ensures { Step.is_written p (seen world.now) ≡ ok result (seen world.now) }
{
    is_defined(world.sets, p.identifier) && peek(world, p.identifier).kind.is_writable()
}

// Whether any captured place is defined and can be written.
pub fn any_written(world: &World, captures: &[u32]) -> bool
    ensures { Step.any_written (captures_of captures.now) (seen world.now) ≡ ok result (seen world.now) }
{
    let n = ONE_RUN.field(captures, 0, 0);
    (0..n).any(|k| is_written(world, ONE_RUN.place_in(captures, 0, 1, k)))
}
