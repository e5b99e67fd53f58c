// Refusals 3 and 4 of the records of a context, one table after the other.
#![tactic(auto)]

ghost use Rattle.std.specs.Prelude.{◌≡◌};
ghost use Rattle.def_refusals.specs.Verdicts.{class_of};
ghost use Rattle.refuse_words.specs.Classes.{lowest_below};
ghost use Rattle.refuse_tables.specs.TableClasses.{identifier_class, function_class, link_class};
ghost use Rattle.refuse_records.specs.Accepting.{too_many_captures, cached_class, diagnostic_class, unused_from, interned_class};
ghost use Rattle.lent_layout.specs.Context.{held};

use def_refusals::{Refusal, Verdict};
use lent_diagnostics::diagnostic_in;
use lent_layout::{CACHED, Context, DIAGNOSTICS, IDENTIFIERS, INTERNED, Numbered, UNUSED};
use lent_slices::get_or;
use refuse_instruction::{Counts, effect_class};
use refuse_keys::{key_class, no_key_class};
use refuse_repeats::diagnostic_twice;
use refuse_tables::{function_class, identifier_class, link_class, message_class, unused_class};
use refuse_words::{earns, lowest};

// Whether a cached key has too many captures; only that of a CreateFunction has any.
// In another key the count is a word without use.
#[tactic(auto, unfolding(crate::specs::Accepting::too_many_captures))]
fn too_many_captures(keys: &[u32], v: usize) -> bool
    ensures { result ≡ too_many_captures keys.now v }
{
    CACHED.field(keys, v, 1) == 13 && CACHED.field(keys, v, 11) > 16
}

// What a cached number earns: no key at all, or one that is right.
#[tactic(auto, unfolding(crate::specs::Accepting::cached_class))]
fn cached_class(keys: &[u32], v: usize, counts: Counts) -> Verdict
    ensures { class_of result ≡ cached_class counts.identifiers counts.functions keys.now v }
{
    if v == 0 || CACHED.field(keys, v, 0) == 0 {
        return no_key_class(keys, v);
    }
    if too_many_captures(keys, v) {
        return Err(Refusal::Count);
    }
    key_class(keys, v, counts)
}

// What a diagnostic earns: right, with the identity that it has to have, and no equal record before it.
// One that is refused already is not looked for among those before it.
fn diagnostic_class(diagnostics: &[Numbered], k: u32, identifiers: u32) -> Verdict
    ensures { class_of result ≡ diagnostic_class identifiers diagnostics.now k }
{
    message_class(diagnostic_in(diagnostics, k), identifiers)?;
    earns(Refusal::Order, diagnostic_twice(diagnostics, k))
}

// What an interned effect earns by its words.
#[tactic(auto, unfolding(crate::specs::Accepting::interned_class))]
fn interned_class(context: &Context, k: usize, counts: Counts) -> Verdict
    ensures { class_of result ≡ interned_class counts.identifiers counts.functions (held context.now) k }
{
    effect_class(
        context,
        Err(Refusal::Range),
        INTERNED,
        context.effects,
        k,
        counts,
    )
}

// What n identifiers earn.
// Past the last that the table has all words are 0, so that no loop runs over a number that no table has.
pub fn identifier_records(identifiers: &[u32], n: usize) -> Verdict
    ensures { class_of result ≡ lowest_below n (identifier_class identifiers.now) }
{
    let m = n.min(IDENTIFIERS.count as usize);
    lowest(m, |k| identifier_class(identifiers, k))
}

// What n functions earn, whose context places stand in a table of their own.
pub fn function_records(functions: &[u32], contexts: &[u32], n: usize, identifiers: u32) -> Verdict
    ensures { class_of result ≡ lowest_below n (function_class identifiers functions.now contexts.now) }
{
    lowest(n, |k| function_class(functions, contexts, k, identifiers))
}

// What the links of n numbers earn.
// From number 0 on.
pub fn link_records(links: &[u32], n: usize, functions: u32) -> Verdict
    ensures { class_of result ≡ lowest_below n (link_class functions links.now) }
{
    lowest(n, |k| link_class(links, k, functions))
}

// What the keys of n numbers earn.
// From number 0 on.
pub fn key_records(keys: &[u32], n: usize, counts: Counts) -> Verdict
    ensures { class_of result ≡ lowest_below n (cached_class counts.identifiers counts.functions keys.now) }
{
    lowest(n, |k| cached_class(keys, k, counts))
}

// What n diagnostics earn.
pub fn diagnostic_records(diagnostics: &[Numbered], n: u32, identifiers: u32) -> Verdict
    ensures { class_of result ≡ lowest_below n (diagnostic_class identifiers diagnostics.now) }
{
    lowest(
        n as usize,
        |k| diagnostic_class(diagnostics, k as u32, identifiers),
    )
}

// What the records of diagnostics from the n-th on earn, which are not in use.
pub fn unused_from(diagnostics: &[Numbered], n: u32) -> Verdict
    ensures { class_of result ≡ unused_from diagnostics.now n }
{
    let left = DIAGNOSTICS.saturating_sub(n as usize);
    lowest(
        left,
        |k| unused_class(get_or(diagnostics, n as usize + k, UNUSED)),
    )
}

// What n interned effects earn.
pub fn effect_records(context: &Context, n: usize, counts: Counts) -> Verdict
    ensures { class_of result ≡ lowest_below n (interned_class counts.identifiers counts.functions (held context.now)) }
{
    lowest(n, |k| interned_class(context, k, counts))
}
