// State and context saved to scratch, before an instruction runs.
#![tactic(auto)]

ghost use Rattle.std.specs.Prelude.{◌≡◌};
ghost use Rattle.call_undo.specs.Saves.{saved_state, saved_context};
ghost use Rattle.lent_layout.specs.Context.{held};

use call_undo::Lengths;
use lent_copies::copy;
use lent_layout::Context;

// Values and n words of sets are copied to scratch, one after the other.
// 1,024 words, then as many as the sets have.
pub fn save_state(values: &[u64], sets: &[u64], n: u32, scratch: &mut [u64])
    ensures { scratch.new ≡ saved_state values.now sets.now n scratch.old }
{
    copy(values, 0, scratch, 0, 1024, 0);
    copy(sets, 0, scratch, 1024, n, 0);
}

// The tables of a context that an instruction may write into are copied to scratch, one after the other.
#[tactic(auto, unfolding(call_undo::specs::Saves::saved_context))]
pub fn save_context(context: &Context, l: Lengths, scratch: &mut [u32])
    ensures { scratch.new ≡ saved_context l (held context.now) scratch.old }
{
    let links = l.contexts as u32;
    copy(context.contexts, 0, scratch, 0, links, 0);
    let keys = links + l.links as u32;
    copy(context.links, 0, scratch, links, l.links as u32, 0);
    let key_order = keys + l.keys as u32;
    copy(context.keys, 0, scratch, keys, l.keys as u32, 0);
    let n = l.key_order as u32;
    copy(context.key_order, 0, scratch, key_order, n, 0);
    let effect_order = key_order + n;
    let n = l.effect_order as u32;
    copy(context.effect_order, 0, scratch, effect_order, n, 0);
}

// State and context are saved.
pub fn save(
    values: &[u64],
    sets: &[u64],
    n: u32,
    context: &Context,
    l: Lengths,
    scratch64: &mut [u64],
    scratch32: &mut [u32],
)
    ensures { (scratch64.new ≡ saved_state values.now sets.now n scratch64.old)
        × (scratch32.new ≡ saved_context l (held context.now) scratch32.old) }
{
    save_state(values, sets, n, scratch64);
    save_context(context, l, scratch32);
}
