// What the steps ask of a context and change in it: the first effect under a key, the number under a key. After intern_effect and
// get_or_create_value_id of the Rust. Each says by one equation what the definition does in the world of lent lists.
#![tactic(auto)]

ghost use Rattle.std.specs.Prelude.{◌≡◌, List};
ghost use Rattle.def_effects.specs.declared.Place.{Place as APlace};
ghost use Rattle.def_transfer.specs.Context as Text;
ghost use Rattle.def_transfer.specs.Context.{diagnostic_of, refreshed};
ghost use Rattle.def_transfer.specs.Monad.{ok};
ghost use Rattle.laws_monad.specs.Answers.{answers};
ghost use Rattle.lent_effects.specs.Records.{effect_with, head_in, captures_of};
ghost use Rattle.lent_layout.specs.Layout as Layout;
ghost use Rattle.lent_layout.specs.Context.{held};
ghost use Rattle.lent_order.specs.Order as Order;
ghost use Rattle.lent_world.specs.Promise.{seen, Kept};
ghost use Rattle.effect_intern.specs.Interning.{chosen};

use def_effects::AliasingDiagnostic;
use def_refusals::Refusal;
use lent_effect_read::effect_in;
use lent_effect_write::put_effect;
use lent_effects::AliasingEffect;
use lent_key_of::key_of;
use lent_keys::WholeKey;
use lent_layout::{Context, EFFECT_ORDER, INTERNED};
use lent_order::{insert, order_at};
use lent_search::find_effect;
use lent_world::World;

// The effect that stands for another from now on: its place in the table if it was there before, and the effect.
// Its captures are those of the table's record where it was found, else those that were given.
#[derive(Clone, Copy)]
pub struct Interned {
    pub found: Option<u32>,
    pub effect: AliasingEffect,
}

// The diagnostic of an effect, or another where it has none.
// MutateFrozen, MutateGlobal and Impure have one.
fn diagnostic_of(other: AliasingDiagnostic, e: AliasingEffect) -> AliasingDiagnostic
    ensures { (cs : List APlace) → result ≡ diagnostic_of other (effect_with e cs) }
{
    match e {
        AliasingEffect::MutateFrozen { place: _, error } => error,
        AliasingEffect::MutateGlobal { place: _, error } => error,
        AliasingEffect::Impure { place: _, error } => error,
        _ => other,
    }
}

// The first effect under a key, with the diagnostic of the effect that was given.
// "Only the diagnostic of MutateFrozen, MutateGlobal and Impure is refreshed."
fn refresh(e: AliasingEffect, x: AliasingEffect) -> AliasingEffect
    ensures { (cs ds : List APlace) → effect_with result ds ≡ refreshed (effect_with e cs) (effect_with x ds) }
{
    match x {
        AliasingEffect::MutateFrozen { place, error } => {
            let error = diagnostic_of(error, e);
            AliasingEffect::MutateFrozen { place, error }
        }
        AliasingEffect::MutateGlobal { place, error } => {
            let error = diagnostic_of(error, e);
            AliasingEffect::MutateGlobal { place, error }
        }
        AliasingEffect::Impure { place, error } => {
            let error = diagnostic_of(error, e);
            AliasingEffect::Impure { place, error }
        }
        _ => x,
    }
}

// The record of the interned effect that comes j-th by its key.
fn record_at(context: &Context, j: u32) -> u32
    ensures { result ≡ Order.order_at Layout.effect_order context.now.effect_order.now j }
{
    order_at(EFFECT_ORDER, context.effect_order, j)
}

// The interned effect that stands in record k.
fn interned_in(context: &Context, k: u32) -> AliasingEffect
    ensures { result ≡ head_in Layout.interned context.now.effects.now k }
{
    effect_in(INTERNED, context.effects, k as usize)
}

// The first effect under the key of an effect is used ever after; a new one is appended and takes its place in the order, and 8 refuses the 2,049th.
// This is intern_effect of the Rust.
pub fn intern_effect(
    world: &mut World,
    e: AliasingEffect,
    captures: &[u32],
) -> Result<Interned, Refusal>
    ensures kept { Kept world.old world.new }
    ensures does { Text.intern_effect (effect_with e (captures_of captures.now)) (seen world.old)
        ≡ answers result
        (λ a. ok (effect_with a.effect (chosen (held world.new.context.now) a.found (captures_of captures.now)))
        (seen world.new))
        (seen world.new) }
{
    let context = &mut *world.context;
    match find_effect(context, WholeKey::new(key_of(e), captures)) {
        Ok(j) => {
            let k = record_at(context, j);
            let x = interned_in(context, k);
            Ok(Interned {
                found: Some(k),
                effect: refresh(e, x),
            })
        }
        Err(p) => {
            let n = context.effect_count;
            if n >= 2048 {
                return Err(Refusal::Interned);
            }
            put_effect(INTERNED, context.effects, n as usize, e, captures);
            insert(EFFECT_ORDER, context.effect_order, n, p, n);
            context.effect_count = n + 1;
            Ok(Interned {
                found: None,
                effect: e,
            })
        }
    }
}
