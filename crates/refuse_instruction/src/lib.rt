// The refusals that the record of an effect and an instruction earn.
// A record is tested word by word, each against a limit by the effect's code; every function is total, and its contract is one equation.
#![tactic(auto)]

ghost use Rattle.std.specs.Prelude.{◌≡◌, leb, not};
ghost use Rattle.base_tests.specs.Tests.{ite};
ghost use Rattle.refuse_words.specs.Classes.{lowest_below, record_class, words_below};
ghost use Rattle.def_refusals.specs.Verdicts.{class_of};
ghost use Rattle.refuse_words.specs.Classes as Classes;
ghost use Rattle.refuse_instruction.specs.Parts.{place_word, middle_word};
ghost use Rattle.refuse_instruction.specs.EffectClasses.{uses, middle_limit, effect_limit, count_class, numbers_class, effect_class, place_class, instruction_class};
ghost use Rattle.lent_layout.specs.Layout.{candidate_table};
ghost use Rattle.lent_layout.specs.Context.{held};

use def_effects::Place;
use def_refusals::{Refusal, Verdict};
use lent_diagnostics::diagnostic_in;
use lent_layout::{CANDIDATES, Context, EFFECT_WORDS};
use lent_tables::Table;
use refuse_class::lower;
use refuse_words::{
    ANY, earns, lowest, place_limit, record_class, run_limit, stray_from, used_if, word_class,
};

// How many identifiers and functions a state and its context have: what the numbers of both lie below.
#[derive(Clone, Copy)]
pub struct Counts {
    pub identifiers: u32,
    pub functions: u32,
}

// What the limits of an effect's words go by: the counts, its code, and its count of captures.
#[derive(Clone, Copy)]
struct Measures {
    counts: Counts,
    diagnostics: u32,
    code: u32,
    captures: u32,
}

// Whether an effect of a code uses a place that is no destination.
// Create and CreateFunction have none, and of an Apply nothing is used.
#[tactic(auto, using(crate::proofs::Laws::Use::uses_past, crate::proofs::Laws::Use::place_create, crate::proofs::Laws::Use::place_apply, crate::proofs::Laws::Use::place_function, crate::proofs::Laws::Use::place_other))]
fn uses_place(code: u32) -> bool
    ensures { ite result 1 0 ≡ uses code 0 }
{
    code < 18 && !matches!(code, 9 | 12 | 13)
}

// Whether an effect of a code uses a destination.
// Capture to ImmutableCapture, and CreateFunction.
#[tactic(auto, using(crate::proofs::Laws::Use::destination_before, crate::proofs::Laws::Use::destination_apply, crate::proofs::Laws::Use::destination_after, crate::proofs::Laws::Use::destination_other))]
fn uses_destination(code: u32) -> bool
    ensures { ite result 1 0 ≡ uses code 1 }
{
    matches!(code, 5..=11 | 13)
}

// Whether an effect of a code uses a reason.
#[tactic(auto, using(crate::proofs::Laws::Use::reason_freeze, crate::proofs::Laws::Use::reason_create, crate::proofs::Laws::Use::reason_other))]
fn uses_reason(code: u32) -> bool
    ensures { ite result 1 0 ≡ uses code 3 }
{
    matches!(code, 0 | 9)
}

// Whether an effect of a code uses a diagnostic.
// MutateFrozen, MutateGlobal and Impure.
#[tactic(auto, using(crate::proofs::Laws::Use::diagnostic_before, crate::proofs::Laws::Use::diagnostic_after, crate::proofs::Laws::Use::diagnostic_other))]
fn uses_diagnostic(code: u32) -> bool
    ensures { ite result 1 0 ≡ uses code 6 }
{
    matches!(code, 14..=16)
}

// What a word between the places and the captures has to lie below.
// Kind, reason, mutation reason, function, identity, instance, count of captures.
// Kinds, mutation reasons, functions and captures belong to one effect each.
#[tactic(auto, using(crate::proofs::Laws::Use::only_kind, crate::proofs::Laws::Use::only_mutation, crate::proofs::Laws::Use::only_function, crate::proofs::Laws::Use::only_captures), unfolding(crate::specs::EffectClasses::middle_limit))]
fn middle_limit(by: Measures, w: usize) -> Option<u64>
    ensures { result ≡ middle_limit by.counts.functions by.diagnostics by.code w }
{
    let code = by.code;
    match w {
        0 => used_if(code == 9, Some(6)),
        1 => used_if(uses_reason(code), Some(12)),
        2 => used_if(code == 1, Some(2)),
        3 => used_if(code == 13, Some(by.counts.functions as u64)),
        4 => used_if(uses_diagnostic(code), Some(256)),
        5 => used_if(uses_diagnostic(code), Some(by.diagnostics as u64)),
        6 => used_if(code == 13, ANY),
        _ => None,
    }
}

// What word w of an effect's record has to lie below, by its code and its count of captures.
// Most words are those of captures.
#[tactic(auto, using(crate::proofs::Laws::Use::only_captures), unfolding(crate::specs::EffectClasses::effect_limit))]
fn effect_limit(by: Measures, w: usize) -> Option<u64>
    ensures { result
        ≡ effect_limit by.counts.identifiers by.counts.functions by.diagnostics by.code by.captures w }
{
    let identifiers = by.counts.identifiers;
    if w >= 18 {
        return used_if(by.code == 13, run_limit(identifiers, by.captures, w - 18));
    }
    if w == 0 {
        return Some(18);
    }
    if w < 6 {
        return used_if(uses_place(by.code), place_limit(identifiers, w - 1));
    }
    if w < 11 {
        return used_if(uses_destination(by.code), place_limit(identifiers, w - 6));
    }
    middle_limit(by, w - 11)
}

// What a place of five words earns, from word `first` of record i on; u is whether it is used.
// Each word for itself: this is the most frequent test of a call.
fn place_words(t: Table, xs: &[u32], i: usize, first: u32, u: bool, identifiers: u32) -> Verdict
    ensures { class_of result ≡ lowest_below 5 (place_word t xs.now i first (ite u 1 0) identifiers) }
{
    let w = first as usize;
    let a = t.field(xs, i, w);
    let b = t.field(xs, i, w + 1);
    let c = t.field(xs, i, w + 2);
    let d = t.field(xs, i, w + 3);
    let e = t.field(xs, i, w + 4);
    let identifier = word_class(used_if(u, place_limit(identifiers, 0)), a);
    let effect = word_class(used_if(u, place_limit(identifiers, 1)), b);
    let reactive = word_class(used_if(u, place_limit(identifiers, 2)), c);
    let start = word_class(used_if(u, place_limit(identifiers, 3)), d);
    let end = word_class(used_if(u, place_limit(identifiers, 4)), e);
    lower(
        identifier,
        lower(effect, lower(reactive, lower(start, end))),
    )
}

// What the seven words after both places earn.
fn middle_words(t: Table, xs: &[u32], i: usize, by: Measures) -> Verdict
    ensures { class_of result
        ≡ lowest_below 7 (middle_word t xs.now i by.counts.functions by.diagnostics by.code) }
{
    let kind = word_class(middle_limit(by, 0), t.field(xs, i, 11));
    let reason = word_class(middle_limit(by, 1), t.field(xs, i, 12));
    let mutation = word_class(middle_limit(by, 2), t.field(xs, i, 13));
    let function = word_class(middle_limit(by, 3), t.field(xs, i, 14));
    let identity = word_class(middle_limit(by, 4), t.field(xs, i, 15));
    let instance = word_class(middle_limit(by, 5), t.field(xs, i, 16));
    let count = word_class(middle_limit(by, 6), t.field(xs, i, 17));
    lower(
        kind,
        lower(
            reason,
            lower(
                mutation,
                lower(function, lower(identity, lower(instance, count))),
            ),
        ),
    )
}

// What the first 18 words earn, those before the captures: the code, two places, and what stands after them.
fn head_words(t: Table, xs: &[u32], i: usize, by: Measures) -> Verdict
    ensures { class_of result
        ≡ words_below t xs.now
        (effect_limit by.counts.identifiers by.counts.functions by.diagnostics by.code by.captures) i 18 }
{
    let identifiers = by.counts.identifiers;
    let tag = word_class(Some(18), t.field(xs, i, 0));
    let first = place_words(t, xs, i, 1, uses_place(by.code), identifiers);
    let second = place_words(t, xs, i, 6, uses_destination(by.code), identifiers);
    let rest = middle_words(t, xs, i, by);
    lower(tag, lower(first, lower(second, rest)))
}

// What the words of an effect's record earn. Only a CreateFunction has captures;
// of any other effect the 80 words of captures have no use, and are tested at once.
fn effect_words(t: Table, xs: &[u32], i: usize, by: Measures) -> Verdict
    ensures { class_of result
        ≡ record_class t xs.now
        (effect_limit by.counts.identifiers by.counts.functions by.diagnostics by.code by.captures) i }
{
    if by.code == 13 || t.width != 98 || i >= (t.count as usize) {
        return record_class(t, xs, i, |w| effect_limit(by, w));
    }
    let head = head_words(t, xs, i, by);
    let from = t.base as usize + i * EFFECT_WORDS + 18;
    lower(head, stray_from(xs, from, 80))
}

// Count where an effect with captures has more than sixteen.
// "Captures (16)."
#[tactic(auto, using(crate::proofs::Laws::Use::captures_function, crate::proofs::Laws::Use::no_captures), unfolding(crate::specs::EffectClasses::count_class))]
fn count_class(code: u32, n: u32) -> Verdict
    ensures { class_of result ≡ count_class code n }
{
    earns(Refusal::Count, code == 13 && n > 16)
}

// Range where an effect with a diagnostic has not the identity that its instance has in the table.
// "A diagnostic must already stand in the table, else 3."
#[tactic(auto, unfolding(crate::specs::EffectClasses::numbers_class))]
fn numbers_class(context: &Context, code: u32, identity: u32, instance: u32) -> Verdict
    ensures { class_of result ≡ numbers_class (held context.now) code identity instance }
{
    earns(
        Refusal::Range,
        uses_diagnostic(code) && identity != diagnostic_in(context.diagnostics, instance).identity,
    )
}

// What an effect's record earns, in a slice of its own or in the context; an Apply earns what is given.
// Of an Apply no word but the code is tested.
pub fn effect_class(
    context: &Context,
    apply: Verdict,
    t: Table,
    xs: &[u32],
    i: usize,
    counts: Counts,
) -> Verdict
    ensures { class_of result
        ≡ effect_class counts.identifiers counts.functions (held context.now) (class_of apply) t xs.now i }
{
    let code = t.field(xs, i, 0);
    if code == 12 {
        return apply;
    }
    let captures = t.field(xs, i, 17);
    let diagnostics = context.diagnostic_count;
    let by = Measures {
        counts,
        diagnostics,
        code,
        captures,
    };
    let words = effect_words(t, xs, i, by);
    let numbers = numbers_class(context, code, t.field(xs, i, 15), t.field(xs, i, 16));
    lower(count_class(code, captures), lower(words, numbers))
}

// What the first n candidates earn.
// "5 a candidate is Apply."
fn candidates_class(context: &Context, candidates: &[u32], n: usize, counts: Counts) -> Verdict
    ensures { class_of result
        ≡ lowest_below n
        (effect_class counts.identifiers counts.functions (held context.now) 5 candidate_table candidates.now) }
{
    let apply = Err(Refusal::Apply);
    lowest(
        n,
        |k| effect_class(context, apply, CANDIDATES, candidates, k, counts),
    )
}

// Range where a word of a place that is lent by value is out of range.
#[tactic(auto, unfolding(crate::specs::EffectClasses::place_class))]
fn place_class(p: Place, identifiers: u32) -> Verdict
    ensures { class_of result ≡ place_class identifiers p }
{
    earns(
        Refusal::Range,
        p.identifier >= identifiers || p.effect >= 8 || p.reactive >= 2,
    )
}

// Range where an instruction's own function + 1 is past the last.
// 0 is none.
fn own_class(own: u32, functions: u32) -> Verdict
    ensures { class_of result ≡ Classes.earns 3 (not (leb own functions)) }
{
    earns(Refusal::Range, own > functions)
}

// What an instruction earns: its candidates, its lvalue, and its own function.
// A count above 64 decides alone, so that no more records are gone through.
pub fn instruction_class(
    context: &Context,
    candidates: &[u32],
    count: u32,
    lvalue: Place,
    own: u32,
    counts: Counts,
) -> Verdict
    ensures { class_of result
        ≡ instruction_class counts.identifiers counts.functions (held context.now) candidates.now count lvalue own }
{
    if count > 64 {
        return Err(Refusal::Count);
    }
    let tested = candidates_class(context, candidates, count as usize, counts);
    lower(
        tested,
        lower(
            place_class(lvalue, counts.identifiers),
            own_class(own, counts.functions),
        ),
    )
}
