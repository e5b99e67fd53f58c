// What a context hands out: the key under which a number was handed out, the function that a value stands for.
#![tactic(auto)]

ghost use Rattle.std.specs.Prelude.{◌≡◌};
ghost use Rattle.lent_keys.specs.KeyRecords.{whole};
ghost use Rattle.lent_layout.specs.Context.{held, SameSlices};
ghost use Rattle.lent_context.specs.Lent as Lent;

use lent_keys;
use lent_keys::{WholeKey, option_in, put_option};
use lent_layout::{CACHED, Context, KEY_ORDER, LINKS};
use lent_order::insert;

// One more, as long as a word can count it.
#[tactic(auto, unfolding(lent_context::specs::Lent::one_more))]
pub fn one_more(n: u32) -> u32
    ensures { result ≡ Lent.one_more n }
{
    n.saturating_add(1)
}

// A number is cached under a key, comes p-th in the order of the keys, and is counted.
// Past 511 there is no record to write.
pub fn put_key(context: &mut Context, p: u32, n: u32, key: WholeKey)
    ensures kept { SameSlices context.old context.new }
    ensures does { held context.new ≡ Lent.cached_at (held context.old) p n (whole key.entry) }
{
    let count = context.key_count;
    lent_keys::put_key(CACHED, context.keys, n as usize, key);
    insert(KEY_ORDER, context.key_order, count, p, n);
    context.key_count = one_more(count);
}

// The function of a value.
// Values without a function are the most.
pub fn link_of(context: &Context, v: u32) -> Option<u32>
    ensures { result ≡ Lent.link_of (held context.now) v }
{
    option_in(LINKS, context.links, v as usize, 0)
}

// A value gets a function.
// Past 511 there is nothing to write.
pub fn put_link(context: &mut Context, v: u32, f: u32)
    ensures kept { SameSlices context.old context.new }
    ensures does { held context.new ≡ Lent.put_link (held context.old) v f }
{
    put_option(LINKS, context.links, v as usize, 0, Some(f));
}
