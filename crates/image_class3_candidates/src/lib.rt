// Whether a candidate of an image has a word out of its range, and whether the words of an image earn refusal 3 (document 01, 'Refused calls').
// Every contract is one equation with the definition of crate `def_image`.
#![tactic(auto)]

ghost use Rattle.std.specs.Prelude.{[], ◌≡◌, get_or};
ghost use Rattle.def_image.specs.Refusals.{bad_candidate, bad_word, details_of, earns_three, limit_of, used_words, uses};
ghost use Rattle.def_transfer.specs.Instruction.{has};

use image_class2::{Section, any_below, any_record, cell, count_of, creates_function};
use image_class3::{bad_function, bad_header, bad_identifier, bad_pair, bad_place, bad_value};
use image_class3_fields::passes_end;

// The codes whose fourth word is a mutation reason, and a kind.
const MUTATE: u32 = 1;

const CREATE: u32 = 9;

// What the fourth word of a candidate of code c has to be below.
// "kind or mutation reason or diagnostic", of which last there is none.
#[tactic(auto, unfolding(def_image::specs::Refusals::details_of))]
pub fn details_of(c: u32) -> u32
    ensures { result ≡ details_of c }
{
    match c {
        MUTATE => 2,
        CREATE => 6,
        _ => 0,
    }
}

// What word j of a candidate of code c has to be below.
// A place, a place, kind or mutation reason or diagnostic, a reason, a function.
#[tactic(auto, unfolding(def_image::specs::Refusals::limit_of))]
pub fn limit_of(im: &[u32], c: u32, j: u32) -> u32
    ensures { result ≡ limit_of im.now c j }
{
    match j {
        1 | 2 => count_of(im, Section::Places),
        3 => details_of(c),
        4 => 12,
        5 => count_of(im, Section::Functions),
        _ => 0,
    }
}

// Whether code c uses word j of its candidate.
// A code past the last has no words, and earns 3 itself.
#[tactic(auto, unfolding(def_image::specs::Refusals::used_words, def_transfer::specs::Instruction::has))]
pub fn code_uses(c: u32, j: u32) -> bool
    ensures { result ≡ has j (get_or used_words c []) }
{
    match c {
        0 => matches!(j, 1 | 4),
        1 | 14 | 15 | 16 => matches!(j, 1 | 3),
        2 | 3 | 4 | 17 => j == 1,
        5 | 6 | 7 | 8 | 10 | 11 => matches!(j, 1 | 2),
        9 => matches!(j, 2 | 3 | 4),
        13 => matches!(j, 2 | 5 | 7),
        _ => false,
    }
}

// Whether candidate k uses its word j.
// "Unused words are zero", and "the first of a run with count 0 is unused"
#[tactic(auto, unfolding(def_image::specs::Refusals::uses))]
pub fn uses(im: &[u32], k: u32, j: u32) -> bool
    ensures { result ≡ uses im.now k j }
{
    code_uses(cell(im, Section::Candidates, k, 0), j)
        || (j == 6 && creates_function(im, k) && cell(im, Section::Candidates, k, 7) != 0)
}

// Whether word j of candidate k is used and out of its range.
// The two words of the captures are tested as a run.
#[tactic(auto, unfolding(def_image::specs::Refusals::bad_word))]
pub fn bad_word(im: &[u32], k: u32, j: u32) -> bool
    ensures { result ≡ bad_word im.now k j }
{
    uses(im, k, j)
        && cell(im, Section::Candidates, k, j)
            >= limit_of(im, cell(im, Section::Candidates, k, 0), j)
}

// Whether the code or a used word of candidate k is out of its range, or its captures pass the end of the places.
// "a code, flag, number, index or reason bit lies outside its range, or a run of places passes their end"
#[tactic(auto, unfolding(def_image::specs::Refusals::bad_candidate))]
pub fn bad_candidate(im: &[u32], k: u32) -> bool
    ensures { result ≡ bad_candidate im.now k }
{
    cell(im, Section::Candidates, k, 0) >= 18
        || any_below(6, |j| bad_word(im, k, j))
        || (creates_function(im, k)
            && passes_end(
                im,
                cell(im, Section::Candidates, k, 6),
                cell(im, Section::Candidates, k, 7),
            ))
}

// Whether the words earn 3.
// "a code, flag, number, index or reason bit lies outside its range, or a run of places passes their end"
#[tactic(auto, unfolding(def_image::specs::Refusals::earns_three))]
pub fn earns_three(im: &[u32]) -> bool
    ensures { result ≡ earns_three im.now }
{
    bad_header(im)
        || any_record(im, Section::Identifiers, |k| bad_identifier(im, k))
        || any_record(im, Section::Values, |k| bad_value(im, k))
        || any_record(im, Section::Pairs, |k| bad_pair(im, k))
        || any_record(im, Section::Places, |k| bad_place(im, k))
        || any_record(im, Section::Functions, |k| bad_function(im, k))
        || any_record(im, Section::Candidates, |k| bad_candidate(im, k))
}
