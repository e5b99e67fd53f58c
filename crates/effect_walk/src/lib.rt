// The freeze walk over lent tables: it calls itself, and the entries still allowed fall. After freeze_function_captures_transitive of the Rust.
#![tactic(auto)]

ghost use Rattle.std.specs.Prelude.{◌≡◌, ◌-◌, ◌*◌, ◌≤◌, ℕ};
ghost use Rattle.def_transfer.specs.Walk as Walk;
ghost use Rattle.lent_layout.specs.Layout as Layout;
ghost use Rattle.lent_tables.specs.Words as Words;
ghost use Rattle.lent_world.specs.Promise.{Kept, Does};
ghost use Rattle.state_ops.specs.Lists.{freezes};
ghost use Rattle.effect_walk.specs.Walks.{value_from, Walked};

use def_refusals::{Refusal, Verdict};
use lent_context::context_count;
use lent_functions::context_identifier;
use lent_links::{link_of, one_more};
use lent_members::next_member;
use lent_sets::is_defined;
use lent_world::World;
use state_freeze::freeze_value;
use state_ops::kind_of;

// Whether a freeze acts on a place: it is defined, and Mutable, Context or MaybeFrozen.
// The walk asks this anew at each context place.
pub fn opens(world: &World, i: u32) -> bool
    ensures { result ≡ freezes world.now.values.now world.now.sets.now i }
{
    is_defined(world.sets, i) && kind_of(world.values, world.sets, i).kind.is_freezable()
}

// The lowest value of a place from `from` on, if there is one.
// A walk lends the whole world to what it enters, so that no iterator can hold on to the sets meanwhile.
#[tactic(auto, unfolding(crate::specs::Walks::value_from))]
pub fn value_from(world: &World, i: u32, from: u32) -> Option<u32>
    ensures { result ≡ value_from world.now.sets.now i from }
{
    if !is_defined(world.sets, i) {
        return None;
    }
    next_member(world.sets, i, from)
}

// The identifier of a context place of a function.
fn entered_place(world: &World, f: u32, k: u32) -> u32
    ensures { result ≡ Words.field Layout.contexts world.now.context.now.contexts.now f (k * 5) }
{
    context_identifier(world.context, f, k)
}

// Enters a value: counts the entry, then looks at the context of the value's function in order, and freezes and enters each value
// of a place there that is defined and Mutable, Context or MaybeFrozen. No mark of what was visited: repeats count too.
// At any depth from the entries still allowed on it is the definition's.
pub fn freeze_function_captures_transitive(world: &mut World, reason: u32, v: u32) -> Verdict
    ensures kept { Kept world.old world.new }
    ensures walked { Walked world.old world.new }
    ensures does { (d : ℕ)
        → 4096 - world.old.run.freeze ≤ d
        → Does (Walk.freeze_function_captures_transitive d reason v) world.old world.new result }
{
    if world.run.freeze >= 4096 {
        return Err(Refusal::Entries);
    }
    world.run.freeze += 1;
    world.run.entries = one_more(world.run.entries);
    let context = &mut *world.context;
    let Some(f) = link_of(context, v) else {
        return Ok(());
    };
    let n = context_count(context, f);
    for k in 0..n {
        let i = entered_place(world, f, k);
        if opens(world, i) {
            let mut from = 1;
            while let Some(m) = value_from(world, i, from) {
                freeze_value(world.values, m, reason);
                freeze_function_captures_transitive(world, reason, m)?;
                from = m + 1;
            }
        }
    }
    Ok(())
}
