// What a lent context earns: its counts, then every record in use of its tables, and the words after them.
// Every function is total, and its contract is one equation with the definition.
#![tactic(auto)]

ghost use Rattle.std.specs.Prelude.{◌≡◌};
ghost use Rattle.def_refusals.specs.Verdicts.{class_of};
ghost use Rattle.refuse_records.specs.Accepting.{handed_out, identifiers_class, functions_class, links_class, keys_class, diagnostics_class, effects_class, counts_wrong, tables_class, context_class};
ghost use Rattle.lent_layout.specs.Context.{held};

use def_refusals::{Refusal, Verdict};
use lent_layout::{CACHED, CONTEXTS, Context, FUNCTIONS, IDENTIFIERS, INTERNED, LINKS};
use refuse_class::lower;
use refuse_instruction::Counts;
use refuse_key_order::key_order_class;
use refuse_order::order_class;
use refuse_records::{
    diagnostic_records, effect_records, function_records, identifier_records, key_records,
    link_records, unused_from,
};
use refuse_words::{stray_after, word_class};

// ---- the tables: the records in use, and the words after them

// What the identifiers earn.
fn identifiers_class(context: &Context, identifiers: u32) -> Verdict
    ensures { class_of result ≡ identifiers_class identifiers (held context.now) }
{
    let n = identifiers as usize;
    let records = identifier_records(context.identifiers, n);
    lower(records, stray_after(IDENTIFIERS, context.identifiers, n))
}

// What the functions with their context places earn.
// Two tables of one number of records.
fn functions_class(context: &Context, counts: Counts) -> Verdict
    ensures { class_of result ≡ functions_class counts.identifiers counts.functions (held context.now) }
{
    let n = counts.functions as usize;
    let records = function_records(context.functions, context.contexts, n, counts.identifiers);
    let after = stray_after(FUNCTIONS, context.functions, n);
    lower(
        records,
        lower(after, stray_after(CONTEXTS, context.contexts, n)),
    )
}

// How many fresh numbers there are below next.
// No more than the tables have, whatever next is.
fn handed_out(next: u32) -> u32
    ensures { result ≡ handed_out next }
{
    next.min(512)
}

// What the links of numbers below next earn.
// A link of another number is a word without use.
fn links_class(context: &Context, functions: u32, next: u32) -> Verdict
    ensures { class_of result ≡ links_class functions (held context.now) next }
{
    let n = handed_out(next) as usize;
    let records = link_records(context.links, n, functions);
    lower(records, stray_after(LINKS, context.links, n))
}

// What the keys of numbers below next earn, and their order.
// A key of another number is a word without use.
fn keys_class(context: &Context, counts: Counts, next: u32) -> Verdict
    ensures { class_of result ≡ keys_class counts.identifiers counts.functions (held context.now) next }
{
    let m = handed_out(next);
    let n = m as usize;
    let records = key_records(context.keys, n, counts);
    let after = stray_after(CACHED, context.keys, n);
    lower(records, lower(after, key_order_class(context, m)))
}

// What the diagnostics earn.
fn diagnostics_class(context: &Context, identifiers: u32) -> Verdict
    ensures { class_of result ≡ diagnostics_class identifiers (held context.now) }
{
    let n = context.diagnostic_count;
    let records = diagnostic_records(context.diagnostics, n, identifiers);
    lower(records, unused_from(context.diagnostics, n))
}

// What the interned effects and their order earn.
fn effects_class(context: &Context, counts: Counts) -> Verdict
    ensures { class_of result ≡ effects_class counts.identifiers counts.functions (held context.now) }
{
    let n = context.effect_count as usize;
    let records = effect_records(context, n, counts);
    let after = stray_after(INTERNED, context.effects, n);
    lower(records, lower(after, order_class(context)))
}

// ---- the whole context

// Whether a count is above its limit.
// 64 functions, 2,048 interned effects, 256 diagnostics, 511 cached keys; 512 identifiers are the state's own limit.
#[tactic(auto, unfolding(refuse_records::specs::Accepting::counts_wrong))]
fn counts_wrong(context: &Context) -> bool
    ensures { result ≡ counts_wrong (held context.now) }
{
    context.function_count > 64
        || context.effect_count > 2048
        || context.diagnostic_count > 256
        || context.key_count > 511
}

// What the options and all tables earn.
// Two options, so below 4.
fn tables_class(context: &Context, identifiers: u32, next: u32) -> Verdict
    ensures { class_of result ≡ tables_class identifiers (held context.now) next }
{
    let functions = context.function_count;
    let counts = Counts {
        identifiers,
        functions,
    };
    let options = word_class(Some(4), context.options);
    let names = identifiers_class(context, identifiers);
    let bodies = functions_class(context, counts);
    let links = links_class(context, functions, next);
    let keys = keys_class(context, counts, next);
    let messages = diagnostics_class(context, identifiers);
    let effects = effects_class(context, counts);
    lower(
        options,
        lower(
            names,
            lower(bodies, lower(links, lower(keys, lower(messages, effects)))),
        ),
    )
}

// What a context earns, for the next number.
// A count is tested before the records are gone through.
pub fn context_class(context: &Context, identifiers: u32, next: u32) -> Verdict
    ensures { class_of result ≡ context_class identifiers (held context.now) next }
{
    if counts_wrong(context) {
        return Err(Refusal::Count);
    }
    tables_class(context, identifiers, next)
}
