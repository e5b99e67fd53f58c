// Refusals 3 and 4 of the order of the interned effects: each place names one of them, and their keys ascend.
// Two entries of one key stand side by side in it, so that no pairs are compared.
#![tactic(auto)]

ghost use Rattle.std.specs.Prelude.{◌≡◌, ℕ};
ghost use Rattle.def_effects.specs.Keys.{EffectKey};
ghost use Rattle.def_key_order.specs.KeyOrder.{compare_keys};
ghost use Rattle.lent_context.specs.Lent.{interned_key};
ghost use Rattle.lent_order.specs.Order.{order_at};
ghost use Rattle.def_refusals.specs.Verdicts.{class_of};
ghost use Rattle.refuse_order.specs.Order.{Compares, descends, place_class, order_class};
ghost use Rattle.lent_layout.specs.Context.{held};

use def_refusals::{Refusal, Verdict};
use lent_key_order::compare_keys;
use lent_layout::{Context, EFFECT_ORDER};
use lent_order::order_at;
use lent_search::interned_key;
use lent_tables::Table;
use refuse_class::lower;
use refuse_words::{earns, lowest, stray_after, word_class};
use std::cmp::Ordering;

// The keys of two interned effects.
pub fn compare_records(context: &Context, a: u32, b: u32) -> Ordering
    ensures { result ≡ compare_keys (interned_key (held context.now) a) (interned_key (held context.now) b) }
{
    compare_keys(interned_key(context, a), interned_key(context, b))
}

// Whether what stands at place j of an order of n does not come before what stands at the next place, if there is one.
// `compare` says how the keys of two numbers compare.
pub fn descends<F: Fn(u32, u32) -> Ordering>(
    order: Table,
    xs: &[u32],
    n: u32,
    j: u32,
    compare: F,
) -> bool
    requires { F.IsAlwaysCallable compare }
    ensures { (key : ℕ → EffectKey) → Compares (F.post compare) key
        → result ≡ descends key (order_at order xs.now) n j }
{
    if j >= n.saturating_sub(1) {
        return false;
    }
    let a = order_at(order, xs, j);
    let b = order_at(order, xs, j + 1);
    compare(a, b).is_ge()
}

// What place j of an order of n effects earns.
#[tactic(auto, unfolding(crate::specs::Order::place_class))]
fn place_class(context: &Context, n: u32, j: u32) -> Verdict
    ensures { class_of result ≡ place_class (held context.now) n j }
{
    let inside = word_class(
        Some(n as u64),
        order_at(EFFECT_ORDER, context.effect_order, j),
    );
    let compare = |a: u32, b: u32| compare_records(context, a, b);
    let misplaced = descends(EFFECT_ORDER, context.effect_order, n, j, compare);
    lower(inside, earns(Refusal::Order, misplaced))
}

// What the order of the interned effects earns.
#[tactic(auto, unfolding(crate::specs::Order::order_class))]
pub fn order_class(context: &Context) -> Verdict
    ensures { class_of result ≡ order_class (held context.now) }
{
    let n = context.effect_count;
    let places = lowest(n as usize, |k| place_class(context, n, k as u32));
    lower(
        places,
        stray_after(EFFECT_ORDER, context.effect_order, n as usize),
    )
}
