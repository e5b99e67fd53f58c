// Whether a word of an image is out of its range, of the header and of every section but the candidates (document 01, 'Refused calls').
// The header and a record of each section but the candidates; every contract is one equation with the definition of crate `def_image`.
#![tactic(auto)]

ghost use Rattle.std.specs.Prelude.{◌≡◌};
ghost use Rattle.def_image.specs.Refusals.{bad_function, bad_header, bad_identifier, bad_pair, bad_place, bad_value, needs_known};

use def_kinds::are_reasons;
use image_class2::{Section, cell, count_of, word};
use image_class3_fields::{are_flags, is_in, is_number, next_in_range, passes_end};

// Whether a word of the header is out of its range.
// "options (bit 0 .., bit 1 ..); next number 1..512; lvalue's place index; own function + 1 or 0"
#[tactic(auto, unfolding(def_image::specs::Refusals::bad_header))]
pub fn bad_header(im: &[u32]) -> bool
    ensures { result ≡ bad_header im.now }
{
    !are_flags(word(im, 1))
        || !next_in_range(im)
        || !is_in(im, Section::Places, word(im, 3))
        || word(im, 4) > count_of(im, Section::Functions)
}

// Whether a word of identifier k is out of its range.
// "flags (1 ref, 2 hoisted), name 1..512 or 0"
#[tactic(auto, unfolding(def_image::specs::Refusals::bad_identifier))]
pub fn bad_identifier(im: &[u32], k: u32) -> bool
    ensures { result ≡ bad_identifier im.now k }
{
    !are_flags(cell(im, Section::Identifiers, k, 0)) || cell(im, Section::Identifiers, k, 1) > 512
}

// Whether a word of value k is out of its range.
// "values: number, kind, reasons"
#[tactic(auto, unfolding(def_image::specs::Refusals::bad_value))]
pub fn bad_value(im: &[u32], k: u32) -> bool
    ensures { result ≡ bad_value im.now k }
{
    !is_number(im, cell(im, Section::Values, k, 0))
        || cell(im, Section::Values, k, 1) >= 6
        || !are_reasons(cell(im, Section::Values, k, 2))
}

// Whether a word of pair k is out of its range.
// "pairs: identifier, value", of which "value 0 .. means defined with an empty set"
#[tactic(auto, unfolding(def_image::specs::Refusals::bad_pair))]
pub fn bad_pair(im: &[u32], k: u32) -> bool
    ensures { result ≡ bad_pair im.now k }
{
    let value = cell(im, Section::Pairs, k, 1);
    !is_in(im, Section::Identifiers, cell(im, Section::Pairs, k, 0))
        || (value != 0 && !is_number(im, value))
}

// Whether a word of place k is out of its range.
// "places: identifier, `Effect` in declared order from 0, reactive 0 or 1"
#[tactic(auto, unfolding(def_image::specs::Refusals::bad_place))]
pub fn bad_place(im: &[u32], k: u32) -> bool
    ensures { result ≡ bad_place im.now k }
{
    !is_in(im, Section::Identifiers, cell(im, Section::Places, k, 0))
        || cell(im, Section::Places, k, 1) >= 8
        || cell(im, Section::Places, k, 2) >= 2
}

// Whether function k needs its effects to be known.
// "2, and any place mutated inside, needs 1, else 3"
#[tactic(auto, unfolding(def_image::specs::Refusals::needs_known))]
pub fn needs_known(im: &[u32], k: u32) -> bool
    ensures { result ≡ needs_known im.now k }
{
    cell(im, Section::Functions, k, 0) % 4 > 1 || cell(im, Section::Functions, k, 4) != 0
}

// Whether a word of function k is out of its range, or a run of it passes the end.
// "functions ..: flags (..), first and count of context places .., first and count of places mutated inside"
#[tactic(auto, unfolding(def_image::specs::Refusals::bad_function))]
pub fn bad_function(im: &[u32], k: u32) -> bool
    ensures { result ≡ bad_function im.now k }
{
    let flags = cell(im, Section::Functions, k, 0);
    !are_flags(flags)
        || (needs_known(im, k) && flags % 2 != 1)
        || passes_end(
            im,
            cell(im, Section::Functions, k, 1),
            cell(im, Section::Functions, k, 2),
        )
        || passes_end(
            im,
            cell(im, Section::Functions, k, 3),
            cell(im, Section::Functions, k, 4),
        )
}
