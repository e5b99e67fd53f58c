// What the context has under a key: the interned effect, the cached number, each by halves along the order of their keys.
#![tactic(auto)]

ghost use Rattle.std.specs.Prelude.{◌≡◌, ◌+◌, ℕ};
ghost use Rattle.std.specs.declared.cmp.Ordering.{Ordering as AnOrdering};
ghost use Rattle.lent_order.specs.Order as Order;
ghost use Rattle.base_search.specs.Search.{along};
ghost use Rattle.lent_search.specs.Searches.{Compares};
ghost use Rattle.def_key_order.specs.KeyOrder.{compare_keys};
ghost use Rattle.lent_keys.specs.KeyRecords.{whole};
ghost use Rattle.lent_layout.specs.Layout as Layout;
ghost use Rattle.lent_layout.specs.Context.{held};
ghost use Rattle.lent_context.specs.Lent as Lent;

use lent_effect_read::effect_in;
use lent_key_of::key_of;
use lent_key_order::compare_keys;
use lent_keys::{WholeKey, captures_in, head_in, key_captures_in};
use lent_layout::{CACHED, Context, EFFECT_ORDER, INTERNED, KEY_ORDER};
use lent_order::order_at;
use std::cmp::Ordering;

// The key of interned effect k, with the identifiers of its captures.
#[tactic(auto, using(lent_keys::proofs::Laws::KeyRecord::effect_key_is))]
pub fn interned_key<'a>(context: &'a Context, k: u32) -> WholeKey<'a>
    ensures { whole result ≡ Lent.interned_key (held context.now) k }
{
    let i = k as usize;
    WholeKey {
        head: key_of(effect_in(INTERNED, context.effects, i)),
        beside: captures_in(INTERNED, context.effects, i),
    }
}

// The key of number v, with the identifiers of its captures.
#[tactic(auto, using(crate::proofs::Laws::Find::cached_key_is))]
pub fn cached_key<'a>(context: &'a Context, v: u32) -> WholeKey<'a>
    ensures { whole result ≡ Lent.key_here (held context.now) v }
{
    let i = v as usize;
    WholeKey {
        head: head_in(CACHED, context.keys, i),
        beside: key_captures_in(CACHED, context.keys, i),
    }
}

// A search by halves among n places: `compare` says how what is sought compares with what stands at a place.
// Whatever it says, the search ends.
fn search<F: Fn(u32) -> Ordering>(n: u32, compare: F) -> Result<u32, u32>
    requires { F.IsAlwaysCallable compare }
    ensures { (c : ℕ → AnOrdering) → Compares (F.post compare) c n → result ≡ along c n }
{
    let mut lo: u32 = 0;
    let mut hi: u32 = n;
    while lo < hi {
        let mid = lo + (hi - lo) / 2;
        let o = compare(mid);
        match o {
            Ordering::Less => {
                hi = mid;
            }
            Ordering::Equal => {
                return Ok(mid);
            }
            Ordering::Greater => {
                lo = mid + 1;
            }
        }
    }
    Err(lo)
}

// Where the order of the interned effects has a key, or would have it.
// By halves; on any words it ends.
pub fn find_effect(context: &Context, key: WholeKey) -> Result<u32, u32>
    ensures { result ≡ Lent.effect_spot (held context.now) (whole key.entry) }
{
    search(
        context.effect_count,
        |j: u32| -> Ordering
            ensures { result
                ≡ compare_keys (whole key.entry)
                (Lent.interned_key (held context.entry.now)
                (Order.order_at Layout.effect_order context.entry.now.effect_order.now j)) }
        {
            compare_keys(
                key,
                interned_key(context, order_at(EFFECT_ORDER, context.effect_order, j)),
            )
        },
    )
}

// ---- cached numbers

// Where the order of the cached keys has a key, or would have it.
// By halves; on any words it ends.
pub fn find_key(context: &Context, key: WholeKey) -> Result<u32, u32>
    ensures { result ≡ Lent.key_spot (held context.now) (whole key.entry) }
{
    search(
        context.key_count,
        |j: u32| -> Ordering
            ensures { result
                ≡ compare_keys (whole key.entry)
                (Lent.key_here (held context.entry.now)
                (Order.order_at Layout.key_order context.entry.now.key_order.now j)) }
        {
            compare_keys(
                key,
                cached_key(context, order_at(KEY_ORDER, context.key_order, j)),
            )
        },
    )
}

// The number at the place of the order where a search ended, if it has a key.
pub fn number_at(context: &Context, spot: Result<u32, u32>) -> Option<u32>
    ensures { result ≡ Lent.number_at (held context.now) spot }
{
    match spot {
        Ok(j) => {
            let v = order_at(KEY_ORDER, context.key_order, j);
            if CACHED.field(context.keys, v as usize, 0) == 0 {
                return None;
            }
            Some(v)
        }
        Err(_) => None,
    }
}

// The place of the order where a search ended.
pub fn place_of(spot: Result<u32, u32>) -> u32
    ensures { result ≡ Lent.place_of spot }
{
    match spot {
        Ok(j) => j,
        Err(p) => p,
    }
}
