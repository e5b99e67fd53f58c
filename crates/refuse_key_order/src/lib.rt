// Refusals 3 and 4 of the order of the cached keys: each place names a number that has a key, the keys ascend, and no number with a key is left out.
// Two entries of one key stand side by side in it, so that no pairs are compared.
#![tactic(auto)]

ghost use Rattle.std.specs.Prelude.{◌≡◌};
ghost use Rattle.base_search.specs.Counting.{how_many};
ghost use Rattle.def_key_order.specs.KeyOrder.{compare_keys};
ghost use Rattle.lent_context.specs.Lent as Lent;
ghost use Rattle.lent_context.specs.Lent.{key_here};
ghost use Rattle.def_refusals.specs.Verdicts.{class_of};
ghost use Rattle.refuse_key_order.specs.KeyOrder.{misplaced, key_place_class, miscounted, key_order_class};
ghost use Rattle.lent_layout.specs.Context.{held};

use def_refusals::{Refusal, Verdict};
use lent_key_order::compare_keys;
use lent_layout::{CACHED, Context, KEY_ORDER};
use lent_order::order_at;
use lent_search::cached_key;
use refuse_class::lower;
use refuse_order::descends;
use refuse_words::{earns, lowest, stray_after, word_class};
use std::cmp::Ordering;

// The keys of two numbers.
fn compare_cached(context: &Context, a: u32, b: u32) -> Ordering
    ensures { result ≡ compare_keys (key_here (held context.now) a) (key_here (held context.now) b) }
{
    compare_keys(cached_key(context, a), cached_key(context, b))
}

// Whether a number has a key.
#[tactic(auto, unfolding(lent_context::specs::Lent::is_keyed))]
fn is_keyed(context: &Context, v: u32) -> bool
    ensures { result ≡ Lent.is_keyed (held context.now) v }
{
    CACHED.field(context.keys, v as usize, 0) != 0
}

// How many of the numbers below m have a key.
fn keyed(context: &Context, m: u32) -> u32
    ensures { result ≡ how_many (Lent.is_keyed (held context.now)) m }
{
    (0..m).map(|v| u32::from(is_keyed(context, v))).sum()
}

// Whether the number at place j of an order of n has no key, or its key does not come before the next.
#[tactic(auto, unfolding(crate::specs::KeyOrder::misplaced))]
fn is_misplaced(context: &Context, n: u32, j: u32) -> bool
    ensures { result ≡ misplaced (held context.now) n j }
{
    let keyed = is_keyed(context, order_at(KEY_ORDER, context.key_order, j));
    let compare = |a: u32, b: u32| compare_cached(context, a, b);
    !keyed || descends(KEY_ORDER, context.key_order, n, j, compare)
}

// What place j of an order of n keys of numbers below m earns.
#[tactic(auto, unfolding(crate::specs::KeyOrder::key_place_class))]
fn key_place_class(context: &Context, m: u32, n: u32, j: u32) -> Verdict
    ensures { class_of result ≡ key_place_class (held context.now) m n j }
{
    let inside = word_class(Some(m as u64), order_at(KEY_ORDER, context.key_order, j));
    lower(inside, earns(Refusal::Order, is_misplaced(context, n, j)))
}

// Whether the order has another number of places than numbers below m have a key.
#[tactic(auto, unfolding(crate::specs::KeyOrder::miscounted))]
fn is_miscounted(context: &Context, m: u32) -> bool
    ensures { result ≡ miscounted (held context.now) m }
{
    keyed(context, m) != context.key_count
}

// What the order of the cached keys earns, of numbers below m.
#[tactic(auto, unfolding(crate::specs::KeyOrder::key_order_class))]
pub fn key_order_class(context: &Context, m: u32) -> Verdict
    ensures { class_of result ≡ key_order_class (held context.now) m }
{
    let n = context.key_count;
    let miscounted = is_miscounted(context, m);
    let counted = earns(Refusal::Order, miscounted);
    let places = lowest(n as usize, |k| key_place_class(context, m, n, k as u32));
    lower(
        counted,
        lower(
            places,
            stray_after(KEY_ORDER, context.key_order, n as usize),
        ),
    )
}
