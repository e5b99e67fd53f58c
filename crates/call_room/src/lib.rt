// How long the slices of a context have to be for an instruction: for what is in use, and for the effects that the candidates can intern.
#![tactic(auto)]

ghost use Rattle.std.specs.Prelude.{◌≡◌, eqb, length, ◌+◌};
ghost use Rattle.base_tests.specs.Tests.{ite};
ghost use Rattle.def_effects.specs.Keys.{effect_key};
ghost use Rattle.lent_tables.specs.Words as Words;
ghost use Rattle.lent_effects.specs.Records.{effect_in};
ghost use Rattle.lent_layout.specs.Layout as Layout;
ghost use Rattle.laws_room.specs.Room.{derives, need};
ghost use Rattle.call_outcome.specs.Attempts.{at_most, lengths_of};
ghost use Rattle.call_undo.specs.Saves.{saved_words};
ghost use Rattle.call_outcome.specs.Calls.{room_for, table_wrong, context_wrong};
ghost use Rattle.lent_layout.specs.Context.{held};

use call_undo::Lengths;
use lent_effects::code_in;
use lent_layout::{
    CACHED, CANDIDATES, CONTEXTS, Context, DIAGNOSTICS, EFFECT_ORDER, EFFECT_WORDS, FUNCTIONS,
    IDENTIFIERS, INTERNED, KEY_ORDER, LINKS,
};
use lent_tables::Table;

// How many effects one of a code can derive, and they in turn; captures apart.
fn derived(code: u32) -> u64
    ensures { result ≡ derives code }
{
    match code {
        1..=4 | 7 | 8 | 10 => 1,
        5 | 6 => 2,
        _ => 0,
    }
}

// How many captures candidate i has, by its code.
// Only a CreateFunction has any.
fn captures_of(xs: &[u32], i: usize, code: u32) -> u32
    ensures { result ≡ ite (eqb code 13) (Words.field Layout.candidate_table xs.now i 17) 0 }
{
    if code == 13 {
        CANDIDATES.field(xs, i, 17)
    } else {
        0
    }
}

// How many effects the step of candidate i can intern.
// Itself, its captures' records, and what it derives.
fn need_of(xs: &[u32], i: usize) -> u64
    ensures { result ≡ need (effect_key (effect_in Layout.candidate_table xs.now i)) }
{
    let code = code_in(CANDIDATES, xs, i);
    let n = captures_of(xs, i, code);
    1 + derived(code) + 4 * (n as u64)
}

// A sum, but no more than 2,048.
// More effects than that are never interned.
fn capped(total: u32, more: u64) -> u32
    ensures { result ≡ at_most 2048 (total + more) }
{
    (total as u64).saturating_add(more).min(2048) as u32
}

// For how many interned effects the context has to have room.
pub fn room_for(context: &Context, candidates: &[u32]) -> u32
    ensures { result ≡ room_for (held context.now) candidates.now }
{
    let n = candidates.len() / EFFECT_WORDS;
    let mut total = capped(context.effect_count, 0);
    for k in 0..n {
        total = capped(total, need_of(candidates, k));
    }
    total
}

// Whether a slice has the wrong length for a table of which n records are asked.
// Too short for them, longer than the table can be, or ending in a part of a record.
#[tactic(auto, unfolding(call_outcome::specs::Calls::table_wrong))]
fn table_wrong(t: Table, n: u32, words: usize) -> bool
    ensures { result ≡ table_wrong t n words }
{
    let width = t.width as usize;
    if width == 0 {
        return words != 0;
    }
    words < n as usize * width || words > t.count as usize * width || words % width != 0
}

// Whether a slice of a context has the wrong length, for so many identifiers and room for so many interned effects.
// At least as many records as are in use, and as the instruction can need; what can be written at any number is there for all numbers.
#[tactic(auto, unfolding(call_outcome::specs::Calls::context_wrong))]
pub fn context_wrong(context: &Context, identifiers: u32, room: u32) -> bool
    ensures { result ≡ context_wrong identifiers room (held context.now) }
{
    let functions = context.function_count.min(FUNCTIONS.count);
    table_wrong(IDENTIFIERS, identifiers, context.identifiers.len())
        || table_wrong(FUNCTIONS, functions, context.functions.len())
        || table_wrong(CONTEXTS, functions, context.contexts.len())
        || table_wrong(LINKS, LINKS.count, context.links.len())
        || table_wrong(CACHED, CACHED.count, context.keys.len())
        || table_wrong(KEY_ORDER, KEY_ORDER.count, context.key_order.len())
        || table_wrong(INTERNED, room, context.effects.len())
        || table_wrong(EFFECT_ORDER, room, context.effect_order.len())
        || context.diagnostics.len() != DIAGNOSTICS
}

// ---- what is saved

// How many words the tables can have that an instruction may write into: context places, links, keys, both orders.
const CONTEXT_WORDS: usize = (CONTEXTS.count * CONTEXTS.width) as usize;

const LINK_WORDS: usize = (LINKS.count * LINKS.width) as usize;

const KEY_WORDS: usize = (CACHED.count * CACHED.width) as usize;

const KEY_ORDER_WORDS: usize = (KEY_ORDER.count * KEY_ORDER.width) as usize;

const EFFECT_ORDER_WORDS: usize = (EFFECT_ORDER.count * EFFECT_ORDER.width) as usize;

// How many words are saved of each table of a context that an instruction may write into: all, but no more than it can have.
#[tactic(auto, using(call_outcome::proofs::Laws::Class::most_past, call_outcome::proofs::Laws::Class::most_within))]
pub fn lengths_of(context: &Context) -> Lengths
    ensures { result ≡ lengths_of (held context.now) }
{
    let contexts = context.contexts.len().min(CONTEXT_WORDS) as u16;
    let links = context.links.len().min(LINK_WORDS) as u16;
    let keys = context.keys.len().min(KEY_WORDS) as u16;
    let key_order = context.key_order.len().min(KEY_ORDER_WORDS) as u16;
    let effect_order = context.effect_order.len().min(EFFECT_ORDER_WORDS) as u16;
    Lengths {
        contexts,
        links,
        keys,
        key_order,
        effect_order,
    }
}

// How many words are saved of a context in all.
pub fn saved_words(l: Lengths) -> usize
    ensures { result ≡ saved_words l }
{
    l.contexts as usize
        + l.links as usize
        + l.keys as usize
        + l.key_order as usize
        + l.effect_order as usize
}
