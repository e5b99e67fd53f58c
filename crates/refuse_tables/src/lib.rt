// The refusals that a record of each table of a context earns by its words.
// Each word of a record is tested against a limit; every function is total, and its contract is one equation.
#![tactic(auto)]

ghost use Rattle.std.specs.Prelude.{◌≡◌, ◌<◌, ℕ, Option};
ghost use Rattle.def_refusals.specs.Verdicts.{class_of};
ghost use Rattle.refuse_words.specs.Classes.{record_class};
ghost use Rattle.lent_layout.specs.Context.{interned_of};
ghost use Rattle.refuse_tables.specs.TableClasses.{identifier_limit, identifier_class, function_limit, needs_known, places_class, function_class, link_limit, link_class, diagnostic_limit, label_class, numbers_of, numbered_class, message_class, unused_class};

use def_effects::{NO_SPAN, Span};
use def_refusals::{Refusal, Verdict};
use lent_layout::{CONTEXTS, FUNCTIONS, IDENTIFIERS, LINKS, Numbered};
use lent_slices::get_or;
use refuse_class::lower;
use refuse_words::{ANY, earns, lowest, record_class, run_limit, used_if, word_class};

// ---- identifiers

// What word w of an identifier has to lie below, by its flags.
// Its access has a use only where it is hoisted.
#[tactic(auto, using(crate::proofs::Laws::Table::used_flag), unfolding(crate::specs::TableClasses::identifier_limit))]
fn identifier_limit(flags: u32, w: usize) -> Option<u64>
    ensures { result ≡ identifier_limit flags w }
{
    match w {
        0 => Some(4),
        1 => Some(513),
        2 | 3 => used_if(flags / 2 % 2 != 0, ANY),
        _ => None,
    }
}

// What an identifier earns.
#[tactic(auto, unfolding(crate::specs::TableClasses::identifier_class))]
pub fn identifier_class(identifiers: &[u32], i: usize) -> Verdict
    ensures { class_of result ≡ identifier_class identifiers.now i }
{
    let flags = IDENTIFIERS.field(identifiers, i, 0);
    record_class(IDENTIFIERS, identifiers, i, |w| identifier_limit(flags, w))
}

// ---- functions

// What word w of a function has to lie below, by its count of places mutated inside.
// Flags and counts come first; the counts are tested apart.
#[tactic(auto, unfolding(crate::specs::TableClasses::function_limit))]
fn function_limit(identifiers: u32, inside: u32, w: usize) -> Option<u64>
    ensures { result ≡ function_limit identifiers inside w }
{
    match w {
        0 => Some(4),
        1 | 2 => ANY,
        _ => run_limit(identifiers, inside, w - 3),
    }
}

// Whether a function has what only one with known effects may have, and its effects are not known.
// A tracked side effect, or a place mutated inside.
#[tactic(auto, unfolding(crate::specs::TableClasses::needs_known))]
fn needs_known(flags: u32, inside: u32) -> bool
    ensures { result ≡ needs_known flags inside }
{
    (flags / 2 % 2 == 1 || inside != 0) && flags % 2 != 1
}

// Count where one of the two counts of a function is above its limit.
// Sixteen context places, 32 mutated inside.
#[tactic(auto, unfolding(crate::specs::TableClasses::places_class))]
fn places_class(n: u32, inside: u32) -> Verdict
    ensures { class_of result ≡ places_class n inside }
{
    earns(Refusal::Count, n > 16 || inside > 32)
}

// What a function earns.
// By both its counts, its record, its flags, and the record of its context places.
pub fn function_class(functions: &[u32], contexts: &[u32], f: usize, identifiers: u32) -> Verdict
    ensures { class_of result ≡ function_class identifiers functions.now contexts.now f }
{
    let flags = FUNCTIONS.field(functions, f, 0);
    let n = FUNCTIONS.field(functions, f, 1);
    let inside = FUNCTIONS.field(functions, f, 2);
    let words = record_class(
        FUNCTIONS,
        functions,
        f,
        |w| function_limit(identifiers, inside, w),
    );
    let places = record_class(CONTEXTS, contexts, f, |w| run_limit(identifiers, n, w));
    let known = earns(Refusal::Range, needs_known(flags, inside));
    lower(places_class(n, inside), lower(words, lower(known, places)))
}

// ---- links

// What word w of the link of a number has to lie below, by its flag.
// Value number 0 has no link.
#[tactic(auto, using(crate::proofs::Laws::Table::used_flag), unfolding(crate::specs::TableClasses::link_limit))]
fn link_limit(functions: u32, v: usize, flag: u32, w: usize) -> Option<u64>
    ensures { result ≡ link_limit functions v flag w }
{
    if v == 0 {
        return None;
    }
    match w {
        0 => Some(2),
        1 => used_if(flag != 0, Some(functions as u64)),
        _ => None,
    }
}

// What the link of a number earns.
#[tactic(auto, unfolding(crate::specs::TableClasses::link_class))]
pub fn link_class(links: &[u32], v: usize, functions: u32) -> Verdict
    ensures { class_of result ≡ link_class functions links.now v }
{
    let flag = LINKS.field(links, v, 0);
    record_class(LINKS, links, v, |w| link_limit(functions, v, flag, w))
}

// ---- diagnostics

// What word w of a diagnostic has to lie below, by its case.
// Case 1 has no sentence.
#[tactic(auto, using(crate::proofs::Laws::Table::used_test), unfolding(crate::specs::TableClasses::diagnostic_limit))]
fn diagnostic_limit(identifiers: u32, case: u32, w: usize) -> Option<u64>
    ensures { result ≡ diagnostic_limit identifiers case w }
{
    match w {
        0 => Some(256),
        1 => Some(identifiers as u64),
        2 => Some(2),
        3 => used_if(case == 0, Some(11)),
        4 => Some(513),
        5..=8 => ANY,
        _ => None,
    }
}

// Order where a diagnostic of case 0 has an access label.
fn label_class(case: u32, access: Span) -> Verdict
    ensures { class_of result ≡ label_class case access.start access.end }
{
    earns(Refusal::Order, case == 0 && access != NO_SPAN)
}

// The numbers of a record of diagnostics, in the order of their limits.
#[tactic(auto, unfolding(crate::specs::TableClasses::numbers_of))]
fn numbers_of(x: Numbered) -> [u32; 9]
    ensures { result ≡ numbers_of (interned_of x) }
{
    let d = x.diagnostic;
    [
        x.identity,
        d.identifier,
        d.case,
        d.sentence,
        d.name,
        d.access.start,
        d.access.end,
        d.own.start,
        d.own.end,
    ]
}

// What such a record earns, by a limit for each number.
fn numbered_class<F: Fn(usize) -> Option<u64>>(x: Numbered, limit: F) -> Verdict
    requires { F.IsAlwaysCallable limit }
    ensures { (limits : ℕ → Option ℕ)
        → ((w : ℕ) (l : _) → w < 9 → F.post limit w l → l ≡ limits w)
        → class_of result ≡ numbered_class limits (interned_of x) }
{
    let numbers = numbers_of(x);
    lowest(9, |w| word_class(limit(w), get_or(&numbers, w, 0)))
}

// What a diagnostic earns by its numbers.
// By each number, and by its access label.
#[tactic(auto, unfolding(crate::specs::TableClasses::message_class))]
pub fn message_class(x: Numbered, identifiers: u32) -> Verdict
    ensures { class_of result ≡ message_class identifiers (interned_of x) }
{
    let d = x.diagnostic;
    let words = numbered_class(x, |w| diagnostic_limit(identifiers, d.case, w));
    lower(words, label_class(d.case, d.access))
}

// What a record without use earns.
#[tactic(auto, unfolding(crate::specs::TableClasses::unused_class))]
pub fn unused_class(x: Numbered) -> Verdict
    ensures { class_of result ≡ unused_class (interned_of x) }
{
    numbered_class(x, |_| None)
}
