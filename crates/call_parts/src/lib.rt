// What an instruction's run is made of beside its candidates: the lvalue that it defines, the entries that it keeps, the places that the own function mutates inside.
// The definition of an instruction from the lent candidates stands in specs/.
#![tactic(auto)]

ghost use Rattle.std.specs.Prelude.{◌≡◌};
ghost use Rattle.def_effects.specs.Places.{identifiers};
ghost use Rattle.def_transfer.specs.Instruction as Instruction;
ghost use Rattle.def_transfer.specs.Monad.{ok};
ghost use Rattle.def_transfer.specs.State as State;
ghost use Rattle.lent_context.specs.Lent as Lent;
ghost use Rattle.lent_world.specs.Promise.{seen, Kept};
ghost use Rattle.call_parts.specs.Instructions.{copied_inside};
ghost use Rattle.lent_layout.specs.Context.{held};

use def_kinds::DEFAULT;
use lent_context::context_count;
use lent_functions::{context_identifier, inside_count};
use lent_layout::{Context, FUNCTIONS};
use lent_sets::is_defined;
use lent_slices::set;
use lent_values::put_value;
use lent_world::World;
use state_assign::define_own;

// Whether an identifier is among the context places of a function.
// A place that is mutated inside counts only if it comes from outside.
pub fn is_near(context: &Context, f: u32, i: u32) -> bool
    ensures { result ≡ Instruction.has i (identifiers (Lent.context_of (held context.now) f)) }
{
    (0..context_count(context, f)).any(|k| i == context_identifier(context, f, k))
}

// The places that a function mutates inside are copied to a slice of 161 words: the count, then the places.
// The context changes while they are gone through.
#[tactic(auto, unfolding(crate::specs::Instructions::copied_inside))]
pub fn copy_inside(context: &Context, f: u32, out: &mut [u32])
    ensures { out.new ≡ copied_inside (held context.now) f out.old }
{
    set(out, 0, inside_count(context, f));
    FUNCTIONS.copy_words(context.functions, f as usize, 3, 160, out, 1);
}

// An lvalue that is not defined becomes defined as its own value, Mutable {Other}.
// "Last, an undefined lvalue becomes defined as its own value." An entry that stands there is overwritten.
pub fn define_lvalue(world: &mut World, i: u32)
    ensures kept { Kept world.old world.new }
    ensures does { Instruction.define_lvalue i (seen world.old) ≡ ok tt (seen world.new) }
{
    let sets = &mut *world.sets;
    if is_defined(sets, i) {
        return;
    }
    put_value(world.values, 512 + (i as usize), DEFAULT);
    define_own(world.sets, i, i);
}

// The session keeps the entries of all Freezes of this instruction.
// "Its walk entries are those of the last instruction that wasn't refused."
#[tactic(auto, unfolding(def_transfer::specs::State::change))]
pub fn keep_entries(world: &mut World)
    ensures kept { Kept world.old world.new }
    ensures does { State.change Instruction.keep_entries (seen world.old) ≡ ok tt (seen world.new) }
{
    world.run.session.entries = world.run.entries;
}
