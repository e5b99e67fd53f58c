// Refusals 3 and 4 of the key that a cached number stands under.
#![tactic(auto)]

ghost use Rattle.std.specs.Prelude.{◌≡◌};
ghost use Rattle.base_tests.specs.Tests.{ite};
ghost use Rattle.def_refusals.specs.Verdicts.{class_of};
ghost use Rattle.refuse_tables.specs.TableClasses.{key_uses, key_head_limit, key_limit, key_lacks, key_class, no_key_class};

use def_refusals::{Refusal, Verdict};
use lent_layout::CACHED;
use refuse_class::lower;
use refuse_instruction::Counts;
use refuse_words::{ANY, earns, record_class, used_if};

// Whether a cached key of a code uses a source.
// CreateFrom and the two keys of Assign.
#[tactic(auto, unfolding(refuse_tables::specs::TableClasses::key_uses, refuse_tables::specs::TableClasses::key_parts))]
fn key_uses_source(code: u32) -> bool
    ensures { ite result 1 0 ≡ key_uses code 0 }
{
    matches!(code, 10 | 18 | 19)
}

// Whether a cached key of a code uses a destination.
#[tactic(auto, unfolding(refuse_tables::specs::TableClasses::key_uses, refuse_tables::specs::TableClasses::key_parts))]
fn key_uses_destination(code: u32) -> bool
    ensures { ite result 1 0 ≡ key_uses code 1 }
{
    matches!(code, 9 | 13) || key_uses_source(code)
}

// What a word before the captures of a cached key has to lie below, by its code.
// The identity of a diagnostic has no use.
#[tactic(auto, using(refuse_tables::proofs::Laws::KeyUse::only_kind, refuse_tables::proofs::Laws::KeyUse::only_function), unfolding(refuse_tables::specs::TableClasses::key_head_limit))]
fn key_head_limit(counts: Counts, code: u32, w: usize) -> Option<u64>
    ensures { result ≡ key_head_limit counts.identifiers counts.functions code w }
{
    match w {
        0 => Some(2),
        1 => Some(20),
        2 => used_if(key_uses_source(code), Some(2)),
        3 => used_if(key_uses_source(code), Some(counts.identifiers as u64)),
        4 => used_if(key_uses_destination(code), Some(2)),
        5 => used_if(key_uses_destination(code), Some(counts.identifiers as u64)),
        6 => used_if(code == 9, Some(6)),
        7 => used_if(code == 9, Some(12)),
        8 => used_if(code == 13, Some(2)),
        9 => used_if(code == 13, Some(counts.functions as u64)),
        11 => used_if(code == 13, ANY),
        _ => None,
    }
}

// What word w of a cached key has to lie below, by its code and its count of captures.
// Twelve words, then sixteen captures.
#[tactic(auto, using(refuse_tables::proofs::Laws::KeyUse::only_function), unfolding(refuse_tables::specs::TableClasses::key_limit))]
fn key_limit(counts: Counts, code: u32, n: u32, w: usize) -> Option<u64>
    ensures { result ≡ key_limit counts.identifiers counts.functions code n w }
{
    if w < 12 {
        return key_head_limit(counts, code, w);
    }
    if w - 12 < (n as usize) {
        return used_if(code == 13, Some(counts.identifiers as u64));
    }
    None
}

// What a number without a key earns.
#[tactic(auto, unfolding(refuse_tables::specs::TableClasses::no_key_class))]
pub fn no_key_class(keys: &[u32], v: usize) -> Verdict
    ensures { class_of result ≡ no_key_class keys.now v }
{
    record_class(CACHED, keys, v, |_| None)
}

// Whether a key has the code of none that is cached, or lacks what its code needs.
// By the flags of source, destination and function.
#[tactic(auto, using(refuse_tables::proofs::Laws::KeyUse::key_has_function, refuse_tables::proofs::Laws::KeyUse::key_no_function), unfolding(refuse_tables::specs::TableClasses::key_lacks, refuse_tables::specs::TableClasses::part_lacks))]
fn key_lacks(code: u32, source: u32, destination: u32, function: u32) -> bool
    ensures { result ≡ key_lacks code source destination function }
{
    !key_uses_destination(code)
        || (key_uses_source(code) && source == 0)
        || destination == 0
        || (code == 13 && function == 0)
}

// What a cached key earns by its words, but for its count.
// By each word, and by what its code needs.
pub fn key_class(keys: &[u32], v: usize, counts: Counts) -> Verdict
    ensures { class_of result ≡ key_class counts.identifiers counts.functions keys.now v }
{
    let code = CACHED.field(keys, v, 1);
    let source = CACHED.field(keys, v, 2);
    let destination = CACHED.field(keys, v, 4);
    let function = CACHED.field(keys, v, 8);
    let n = CACHED.field(keys, v, 11);
    let words = record_class(CACHED, keys, v, |w| key_limit(counts, code, n, w));
    let lacks = key_lacks(code, source, destination, function);
    lower(words, earns(Refusal::Range, lacks))
}
