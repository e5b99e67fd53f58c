// The lines of a listing as bytes in a lent buffer (document 01, 'The job image and its program').
// What does not fit is left out; the buffer of a piece suffices for every line.
#![tactic(auto)]

ghost use Rattle.std.specs.Prelude.{None, Some, [], ◌∷◌, ◌≡◌};
ghost use Rattle.lent_values.specs.Cells.{value_at};
ghost use Rattle.lent_sets.specs.Rows.{set_at};
ghost use Rattle.base_sets.specs.Members.{values_of};
ghost use Rattle.lent_effects.specs.Records.{effect_with};
ghost use Rattle.def_image.specs.Listing.{ascii, effect_row, line, or_absent, place, refusal_line, row, set_line, undefined_identifier, value_line};
ghost use Rattle.image_text.specs.Texts.{columns, cursor_of, Kept, put_all};
ghost use Rattle.image_pieces.specs.Pieces.{effect_line, WritesInto};

use def_effects::Place;
use image_text::{Text, mutation_reason, undefined_identifier};
use lent_effect_read::effect_in;
use lent_effects::{AliasingEffect, kind_word};
use lent_layout::OUTPUT;
use lent_members::members;
use lent_sets::is_defined;
use lent_values::value_at;

// The first line of a listing.
// "OK: effects, walk entries."
pub fn put_head(buffer: &mut [u8], count: u32, entries: u32) -> usize
    ensures { WritesInto buffer.old buffer.new result (line (ascii "OK") (Some count ∷ Some entries ∷ [])) }
{
    let mut text = Text { buffer, at: 0 };
    text.put_line(b"OK", &[Some(count), Some(entries)]);
    text.at
}

// ---- effects

// The columns of an effect of two places.
fn pair_row(code: u32, from: Place, into: Place) -> [Option<u32>; 6]
    ensures { result ≡ row code (place from) (place into) None None None }
{
    [
        Some(code),
        Some(from.identifier),
        Some(into.identifier),
        None,
        None,
        None,
    ]
}

// The columns of an effect of one place that is no destination, with what stands in the last.
// "A place that is no destination is a source."
fn source_row(code: u32, from: Place, last: Option<u32>) -> [Option<u32>; 6]
    ensures { result ≡ row code (place from) None None None last }
{
    [Some(code), Some(from.identifier), None, None, None, last]
}

// The six columns of an effect. Captures are not shown.
// "E: code, source, destination, kind, reason, function or diagnostic."; "Places are shown by identifier.", and a diagnostic by its place in the table.
#[tactic(auto, unfolding(lent_effects::specs::Records::effect_with))]
fn effect_row(e: AliasingEffect) -> [Option<u32>; 6]
    ensures { result ≡ effect_row (effect_with e []) }
{
    match e {
        AliasingEffect::Freeze { place, reason } => [
            Some(0),
            Some(place.identifier),
            None,
            None,
            Some(reason),
            None,
        ],
        AliasingEffect::Mutate { place, reason } => [
            Some(1),
            Some(place.identifier),
            None,
            None,
            mutation_reason(reason),
            None,
        ],
        AliasingEffect::MutateConditionally { place } => source_row(2, place, None),
        AliasingEffect::MutateTransitive { place } => source_row(3, place, None),
        AliasingEffect::MutateTransitiveConditionally { place } => source_row(4, place, None),
        AliasingEffect::Capture { from, into } => pair_row(5, from, into),
        AliasingEffect::Alias { from, into } => pair_row(6, from, into),
        AliasingEffect::MaybeAlias { from, into } => pair_row(7, from, into),
        AliasingEffect::Assign { from, into } => pair_row(8, from, into),
        AliasingEffect::Create { into, kind, reason } => [
            Some(9),
            None,
            Some(into.identifier),
            Some(kind_word(kind)),
            Some(reason),
            None,
        ],
        AliasingEffect::CreateFrom { from, into } => pair_row(10, from, into),
        AliasingEffect::ImmutableCapture { from, into } => pair_row(11, from, into),
        AliasingEffect::CreateFunction { function, into } => [
            Some(13),
            None,
            Some(into.identifier),
            None,
            None,
            Some(function),
        ],
        AliasingEffect::MutateFrozen { place, error } => source_row(
            14,
            place,
            Some(error.instance),
        ),
        AliasingEffect::MutateGlobal { place, error } => source_row(
            15,
            place,
            Some(error.instance),
        ),
        AliasingEffect::Impure { place, error } => source_row(16, place, Some(error.instance)),
        AliasingEffect::Render { place } => source_row(17, place, None),
    }
}

// The line of effect k of the output list, if there are more than k.
// In the order in which they were listed.
pub fn put_effect_line(text: &mut Text, output: &[u32], count: u32, k: u32)
    ensures kept { Kept text.old text.new }
    ensures written { cursor_of text.new ≡ put_all (effect_line output.now count k) (cursor_of text.old) }
{
    if k < count {
        let row = effect_row(effect_in(OUTPUT, output, k as usize));
        text.put_line(b"E", &row);
    }
}

// ---- values

// The line of a value number, if it has an entry.
// "V: number, kind, reasons."
pub fn put_value_line(text: &mut Text, values: &[u64], v: u32)
    ensures kept { Kept text.old text.new }
    ensures written { cursor_of text.new ≡ put_all (value_line v (value_at values.now v)) (cursor_of text.old) }
{
    if let Some(a) = value_at(values, v as usize) {
        text.put_line(b"V", &[Some(v), Some(kind_word(a.kind)), Some(a.reason)]);
    }
}

// ---- sets

// The columns of an identifier's values, ascending; a dash where there are none.
// "its values, or `-` for an empty set."
fn put_members(text: &mut Text, sets: &[u64], i: u32)
    ensures kept { Kept text.old text.new }
    ensures written { cursor_of text.new
        ≡ put_all (columns (or_absent (values_of (set_at sets.now i)))) (cursor_of text.old) }
{
    let mut values = members(sets, i);
    match values.next() {
        None => text.put_absent(),
        Some(first) => {
            text.put_number(first);
            for m in values {
                text.put_number(m);
            }
        }
    }
}

// The line of an identifier, if it is defined.
// "P: identifier, its values, or `-` for an empty set."
pub fn put_set_line(buffer: &mut [u8], sets: &[u64], i: u32) -> usize
    ensures { WritesInto buffer.old buffer.new result (set_line i (set_at sets.now i)) }
{
    if !is_defined(sets, i) {
        return 0;
    }
    let mut text = Text { buffer, at: 0 };
    text.put_bytes(b"P");
    text.put_number(i);
    put_members(&mut text, sets, i);
    text.put_newline();
    text.at
}

// ---- the last line, and that of a refusal

// The last line of a listing.
// "U: first undefined identifier."
pub fn put_undefined(buffer: &mut [u8], access: u32) -> usize
    ensures { WritesInto buffer.old buffer.new result (line (ascii "U") (undefined_identifier access ∷ [])) }
{
    let mut text = Text { buffer, at: 0 };
    text.put_line(b"U", &[undefined_identifier(access)]);
    text.at
}

// The line of a refusal.
// "A refusal prints only `REFUSED n`."
pub fn put_refusal(buffer: &mut [u8], n: u32) -> usize
    ensures { WritesInto buffer.old buffer.new result (refusal_line n) }
{
    let mut text = Text { buffer, at: 0 };
    text.put_line(b"REFUSED", &[Some(n)]);
    text.at
}
