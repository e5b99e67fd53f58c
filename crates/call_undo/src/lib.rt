// What the call for an instruction saves before it runs, and how it puts that back after a refusal.
// The tables of a state are saved whole, and those of a context that an instruction may write into; effects and diagnostics are only appended.
#![tactic(auto)]

ghost use Rattle.std.specs.Prelude.{◌≡◌};
ghost use Rattle.lent_copies.specs.Copies.{copied};
ghost use Rattle.call_undo.specs.Saves.{forgotten, withdrawn, restored_context};
ghost use Rattle.lent_layout.specs.Context.{held, SameSlices};
ghost use Rattle.lent_copies.specs.Cleared.{Cleared};
ghost use Rattle.lent_world.specs.Promise.{Kept};

use lent_copies::copy;
use lent_layout::{Context, EFFECT_WORDS, Numbered, UNUSED};
use lent_slices::set;
use lent_world::World;

// How many words are saved of each table of a context that an instruction may write into.
#[derive(Clone, Copy)]
pub struct Lengths {
    pub contexts: u16,
    pub links: u16,
    pub keys: u16,
    pub key_order: u16,
    pub effect_order: u16,
}

// How many records of a context are in use.
#[derive(Clone, Copy)]
pub struct Used {
    pub effects: u32,
    pub keys: u32,
    pub diagnostics: u32,
}

// Values and n words of sets are copied back.
// "After a refusal state .. are as before."
pub fn restore_state(values: &mut [u64], sets: &mut [u64], n: u32, scratch: &[u64])
    ensures { (values.new ≡ copied scratch.now 0 0 1024 values.old)
        × (sets.new ≡ copied scratch.now 1024 0 n sets.old) }
{
    copy(scratch, 0, values, 0, 1024, 0);
    copy(scratch, 1024, sets, 0, n, 0);
}

// Interned effects from record `from` to before record `to` become zero.
// So those that a refused instruction appended go.
pub fn forget_effects(effects: &mut [u32], from: u32, to: u32)
    ensures { effects.new ≡ forgotten from to effects.old }
{
    if to <= from {
        return;
    }
    let at = (from as usize) * EFFECT_WORDS;
    let n = (to - from) as usize * EFFECT_WORDS;
    for k in 0..n {
        set(effects, at + k, 0);
    }
}

// Diagnostics from record `from` to before record `to` become zero.
pub fn withdraw(diagnostics: &mut [Numbered], from: u32, to: u32)
    ensures { diagnostics.new ≡ withdrawn from to diagnostics.old }
{
    if to <= from {
        return;
    }
    copy(&[], 0, diagnostics, from, to - from, UNUSED);
}

// A context is put back: what was appended since goes, the tables that were saved return, and with them how many records were in use.
// "After a refusal .. context .. are as before."
#[tactic(auto, unfolding(crate::specs::Saves::restored_context))]
pub fn restore_context(context: &mut Context, l: Lengths, u: Used, scratch: &[u32])
    ensures kept { SameSlices context.old context.new }
    ensures does { held context.new ≡ restored_context l u scratch.now (held context.old) }
{
    forget_effects(context.effects, u.effects, context.effect_count);
    withdraw(context.diagnostics, u.diagnostics, context.diagnostic_count);
    let links = l.contexts as u32;
    copy(scratch, 0, context.contexts, 0, links, 0);
    let keys = links + l.links as u32;
    copy(scratch, links, context.links, 0, l.links as u32, 0);
    let key_order = keys + l.keys as u32;
    copy(scratch, keys, context.keys, 0, l.keys as u32, 0);
    let n = l.key_order as u32;
    copy(scratch, key_order, context.key_order, 0, n, 0);
    let effect_order = key_order + n;
    let n = l.effect_order as u32;
    copy(scratch, effect_order, context.effect_order, 0, n, 0);
    context.effect_count = u.effects;
    context.key_count = u.keys;
    context.diagnostic_count = u.diagnostics;
}

// ---- both

// State and context are put back, and the output list becomes zero.
// After an instruction was refused.
#[tactic(auto, unfolding(lent_copies::specs::Copies::zeros))]
pub fn undo(world: &mut World, n: u32, l: Lengths, u: Used, scratch64: &[u64], scratch32: &[u32])
    ensures kept { Kept world.old world.new }
    ensures restores { (world.new.values.now ≡ copied scratch64.now 0 0 1024 world.old.values.now)
        × (world.new.sets.now ≡ copied scratch64.now 1024 0 n world.old.sets.now)
        × (held world.new.context.now ≡ restored_context l u scratch32.now (held world.old.context.now))
        × Cleared world.old.output.now world.new.output.now
        × (world.new.run ≡ world.old.run) }
{
    restore_state(world.values, world.sets, n, scratch64);
    restore_context(world.context, l, u, scratch32);
    world.output.fill(0);
}
