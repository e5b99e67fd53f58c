// The lent tables of an accepted image: values, sets, context and candidates, written from the image's words (document 01, 'The job image and its program').
// Every function is total: past the end of the image stands 0, and what a table has no room for is not written.
#![tactic(auto)]

ghost use Rattle.std.specs.Prelude.{◌≡◌, ◌+◌};
ghost use Rattle.lent_tables.specs.Words.{put_places};
ghost use Rattle.def_image.specs.Layout as Image;
ghost use Rattle.def_image.specs.Layout.{count_of};
ghost use Rattle.def_image.specs.Decode.{member_of, place_at, places_from};
ghost use Rattle.lent_sets.specs.Rows.{add_set};
ghost use Rattle.image_decode.specs.Decoded.{decoded_value, decoded_values, decoded_pair, decoded_sets, decoded_identifier, decoded_identifiers, decoded_counts, decoded_function, decoded_functions, decoded_places, decoded_contexts, decoded_context};
ghost use Rattle.lent_layout.specs.Context.{held, SameSlices};

use def_effects::{Place, Span};
use def_kinds::{AbstractValue, ValueKind};
use image_class2::{Section, cell, cell_in_run, count_of, word};
use lent_layout::{CONTEXTS, Context, FUNCTIONS, IDENTIFIERS};
use lent_set_writes::{add_set, put_set};
use lent_sets::add_value;
use lent_tables::Table;
use lent_values::put_value;

// ---- the words of an image

// Place i of a run of places, from place `first` on.
// "places: identifier, `Effect` in declared order from 0, reactive 0 or 1, start, end"
#[tactic(auto, unfolding(def_image::specs::Decode::place_at))]
fn place_of(im: &[u32], first: u32, i: u32) -> Place
    ensures { result ≡ place_at im.now (first + i) }
{
    let section = Section::Places;
    Place {
        identifier: cell_in_run(im, section, first, i, 0),
        effect: cell_in_run(im, section, first, i, 1),
        reactive: cell_in_run(im, section, first, i, 2),
        span: Span {
            start: cell_in_run(im, section, first, i, 3),
            end: cell_in_run(im, section, first, i, 4),
        },
    }
}

// Place k of the image.
pub fn place_at(im: &[u32], k: u32) -> Place
    ensures { result ≡ place_at im.now k }
{
    place_of(im, 0, k)
}

// ---- the state

// Value k of the image is put into the table of values.
// "values: number, kind, reasons"
#[tactic(auto, unfolding(crate::specs::Decoded::decoded_value))]
fn decode_value(im: &[u32], k: u32, values: &mut [u64])
    ensures { values.new ≡ decoded_value im.now k values.old }
{
    let number = cell(im, Section::Values, k, 0);
    let value = AbstractValue {
        kind: ValueKind::of_code(cell(im, Section::Values, k, 1)),
        reason: cell(im, Section::Values, k, 2),
    };
    put_value(values, number as usize, value);
}

// All values of the image are put into the table of values.
// As many as the header says, one after the other.
#[tactic(auto, using(crate::proofs::Laws::Read::after_more, crate::proofs::Laws::Read::after_none), unfolding(crate::specs::Decoded::decoded_values))]
pub fn decode_values(im: &[u32], values: &mut [u64])
    ensures { values.new ≡ decoded_values im.now (count_of im.now Image.values) values.old }
{
    for k in 0..count_of(im, Section::Values) {
        decode_value(im, k, values);
    }
}

// A set in hand gets a pair's value too; value 0 adds nothing.
// "value 0 .. means defined with an empty set"
fn add_member(acc: &mut [u64], v: u32)
    ensures { acc.new ≡ add_set acc.old (member_of v) }
{
    if v != 0 {
        add_value(acc, v);
    }
}

// Pair k of the image is put into the rows: its identifier is defined, and its value is in the set.
// "pairs: identifier, value, ascending"
fn decode_pair(im: &[u32], k: u32, sets: &mut [u64])
    ensures { sets.new ≡ decoded_pair im.now k sets.old }
{
    let i = cell(im, Section::Pairs, k, 0);
    let v = cell(im, Section::Pairs, k, 1);
    let mut acc = [0u64; 16];
    add_set(&mut acc, sets, i);
    add_member(&mut acc, v);
    put_set(sets, i, &acc);
}

// All pairs of the image are put into the rows.
// As many as the header says, one after the other.
#[tactic(auto, using(crate::proofs::Laws::Read::after_more, crate::proofs::Laws::Read::after_none), unfolding(crate::specs::Decoded::decoded_sets))]
pub fn decode_sets(im: &[u32], sets: &mut [u64])
    ensures { sets.new ≡ decoded_sets im.now (count_of im.now Image.pairs) sets.old }
{
    for k in 0..count_of(im, Section::Pairs) {
        decode_pair(im, k, sets);
    }
}

// ---- the context

// The four words of identifier k are put into its table.
// "flags (1 ref, 2 hoisted), name 1..512 or 0, access start, end"
#[tactic(auto, using(crate::proofs::Laws::Read::after_more), unfolding(crate::specs::Decoded::after, crate::specs::Decoded::decoded_identifier))]
fn decode_identifier(im: &[u32], k: u32, identifiers: &mut [u32])
    ensures { identifiers.new ≡ decoded_identifier im.now k identifiers.old }
{
    for j in 0..4 {
        IDENTIFIERS.put_field(
            identifiers,
            k as usize,
            j as usize,
            cell(im, Section::Identifiers, k, j),
        );
    }
}

// All identifiers of the image are put into their table.
// As many as the header says, one after the other.
#[tactic(auto, using(crate::proofs::Laws::Read::after_more, crate::proofs::Laws::Read::after_none), unfolding(crate::specs::Decoded::decoded_identifiers))]
fn decode_identifiers(im: &[u32], identifiers: &mut [u32])
    ensures { identifiers.new
        ≡ decoded_identifiers im.now (count_of im.now Image.identifiers) identifiers.old }
{
    for k in 0..count_of(im, Section::Identifiers) {
        decode_identifier(im, k, identifiers);
    }
}

// A run of n places of the image is written from word w of record i on.
// Words that the record has no room for are not written.
pub fn put_run(t: Table, xs: &mut [u32], i: usize, w: u32, im: &[u32], first: u32, n: u32)
    ensures { xs.new ≡ put_places t xs.old i w 0 (places_from im.now first n) }
{
    for k in 0..n {
        t.put_place(xs, i, w, k, place_of(im, first, k));
    }
}

// Flags and both counts of function k are put into its table.
// The counts of context places and of places mutated inside.
#[tactic(auto, unfolding(crate::specs::Decoded::decoded_counts))]
fn decode_counts(im: &[u32], k: u32, functions: &mut [u32])
    ensures { functions.new ≡ decoded_counts im.now k functions.old }
{
    let i = k as usize;
    FUNCTIONS.put_field(functions, i, 0, cell(im, Section::Functions, k, 0));
    FUNCTIONS.put_field(functions, i, 1, cell(im, Section::Functions, k, 2));
    FUNCTIONS.put_field(functions, i, 2, cell(im, Section::Functions, k, 4));
}

// Function k is put into its table: flags and counts, and the places mutated inside.
#[tactic(auto, unfolding(crate::specs::Decoded::decoded_function))]
fn decode_function(im: &[u32], k: u32, functions: &mut [u32])
    ensures { functions.new ≡ decoded_function im.now k functions.old }
{
    let first = cell(im, Section::Functions, k, 3);
    let n = cell(im, Section::Functions, k, 4);
    decode_counts(im, k, functions);
    put_run(FUNCTIONS, functions, k as usize, 3, im, first, n);
}

// All functions of the image are put into their table.
// As many as the header says, one after the other.
#[tactic(auto, using(crate::proofs::Laws::Read::after_more, crate::proofs::Laws::Read::after_none), unfolding(crate::specs::Decoded::decoded_functions))]
fn decode_functions(im: &[u32], functions: &mut [u32])
    ensures { functions.new ≡ decoded_functions im.now (count_of im.now Image.functions) functions.old }
{
    for k in 0..count_of(im, Section::Functions) {
        decode_function(im, k, functions);
    }
}

// The context places of function k are put into their table.
// "each function has its own copy of its context places"
#[tactic(auto, unfolding(crate::specs::Decoded::decoded_places))]
fn decode_places(im: &[u32], k: u32, contexts: &mut [u32])
    ensures { contexts.new ≡ decoded_places im.now k contexts.old }
{
    let first = cell(im, Section::Functions, k, 1);
    let n = cell(im, Section::Functions, k, 2);
    put_run(CONTEXTS, contexts, k as usize, 0, im, first, n);
}

// Those of all functions of the image are put into their table.
// As many as the header says, one after the other.
#[tactic(auto, using(crate::proofs::Laws::Read::after_more, crate::proofs::Laws::Read::after_none), unfolding(crate::specs::Decoded::decoded_contexts))]
fn decode_contexts(im: &[u32], contexts: &mut [u32])
    ensures { contexts.new ≡ decoded_contexts im.now (count_of im.now Image.functions) contexts.old }
{
    for k in 0..count_of(im, Section::Functions) {
        decode_places(im, k, contexts);
    }
}

// All that the image says of a context is put into it.
// "Interned effects, cached numbers, links and diagnostics start empty": the context was zero.
#[tactic(auto, unfolding(crate::specs::Decoded::decoded_context))]
pub fn decode_context(im: &[u32], context: &mut Context)
    ensures kept { SameSlices context.old context.new }
    ensures does { held context.new ≡ decoded_context im.now (held context.old) }
{
    context.options = word(im, 1);
    context.function_count = count_of(im, Section::Functions);
    decode_identifiers(im, context.identifiers);
    decode_functions(im, context.functions);
    decode_contexts(im, context.contexts);
}
