// What CreateFunction asks of its function's context places and does to them. After the arm for CreateFunction of the Rust.
#![tactic(auto)]

ghost use Rattle.std.specs.Prelude.{◌≡◌};
ghost use Rattle.def_transfer.specs.Monad.{ok, each};
ghost use Rattle.def_transfer.specs.Step as Step;
ghost use Rattle.lent_context.specs.Lent as Lent;
ghost use Rattle.lent_effects.specs.Records.{captures_of};
ghost use Rattle.lent_world.specs.Promise.{seen, Kept};
ghost use Rattle.effect_function_context.specs.Functions.{copied_context, becomes_read};
ghost use Rattle.lent_layout.specs.Context.{held};

use def_effects::Place;
use lent_context::{context_count, is_ref, make_read};
use lent_functions::context_identifier;
use lent_layout::{CONTEXTS, Context, ONE_RUN, RUN_WORDS};
use lent_sets::is_defined;
use lent_slices::set;
use lent_world::World;
use state_ops::kind_of;

// Whether any context place of a function is a ref.
pub fn any_ref(world: &World, f: u32) -> bool
    ensures { Step.any_ref (Lent.context_of (held world.now.context.now) f) (seen world.now).rest ≡ result }
{
    (0..context_count(world.context, f)).any(|k| is_ref(
        world.context,
        context_identifier(world.context, f, k),
    ))
}

// The context places of a function are copied to a slice of 81 words: the count, then the places.
// They change while they are gone through, and what is gone through is what they were.
#[tactic(auto, unfolding(crate::specs::Functions::copied_context))]
pub fn copy_context(context: &Context, f: u32, out: &mut [u32])
    ensures { out.new ≡ copied_context (held context.now) f out.old }
{
    set(out, 0, context_count(context, f));
    CONTEXTS.copy_words(context.contexts, f as usize, 0, 80, out, 1);
}

// Whether a context place becomes Read: it is a Capture of a place that is defined and Primitive, Frozen or Global.
// No access is recorded.
fn becomes_read(world: &World, p: Place) -> bool
    ensures { result ≡ becomes_read world.now.values.now world.now.sets.now p }
{
    if p.effect != 3 || !is_defined(world.sets, p.identifier) {
        return false;
    }
    let kind = kind_of(world.values, world.sets, p.identifier).kind;
    kind.is_copied() || kind.is_frozen()
}

// A Capture context place becomes Read if it is defined and Primitive, Frozen or Global.
// In the function's own copy.
pub fn update_place(world: &mut World, f: u32, p: Place)
    ensures kept { Kept world.old world.new }
    ensures does { Step.update_context f p (seen world.old) ≡ ok tt (seen world.new) }
{
    if becomes_read(world, p) {
        make_read(world.context, f, p.identifier);
    }
}

// So each of some places, in order; they stand in a slice of 81 words.
// "Turns a Capture context place of its function into Read where that place is defined and Primitive, Frozen or Global."
pub fn update_places(world: &mut World, f: u32, places: &[u32])
    ensures kept { Kept world.old world.new }
    ensures does { each (captures_of places.now) (Step.update_context f) (seen world.old) ≡ ok tt (seen world.new) }
{
    let n = ONE_RUN.field(places, 0, 0);
    for k in 0..n {
        update_place(world, f, ONE_RUN.place_in(places, 0, 1, k));
    }
}

// The context places of a function that are Captures of places that are defined and Primitive, Frozen or Global become Read.
// What is gone through are the places as they were before.
pub fn update_context(world: &mut World, f: u32)
    ensures kept { Kept world.old world.new }
    ensures does { each (Lent.context_of (held world.old.context.now) f) (Step.update_context f) (seen world.old)
        ≡ ok tt (seen world.new) }
{
    let mut places = [0u32; RUN_WORDS];
    let context = &mut *world.context;
    copy_context(context, f, &mut places);
    update_places(world, f, &places);
}
