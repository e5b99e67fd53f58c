// Whether the words of an image earn refusal 4: orders, unused words, and numbers not handed out yet (document 01, 'Refused calls').
// Leaves first, then all of them; every contract is one equation with the definition of crate `def_image`.
#![tactic(auto)]

ghost use Rattle.std.specs.Prelude.{◌≡◌};
ghost use Rattle.def_image.specs.Refusals.{earns_four, empty_not_alone, stray_access, stray_first, stray_in_candidate, stray_in_function, stray_word};

use image_class2::{Section, any_below, any_neighbours, any_record, cell, is_apply, next_cell};
use image_class3_candidates::uses;
use image_class4_entries::{pair_too_new, pairs_unordered, value_too_new, values_unordered};

// Whether the first of an empty run is not zero.
// "the first of a run with count 0 is unused"
#[tactic(auto, unfolding(def_image::specs::Refusals::stray_first))]
fn stray_first(first: u32, count: u32) -> bool
    ensures { result ≡ stray_first first count }
{
    count == 0 && first != 0
}

// Whether identifier k is not hoisted and has an access.
// "access start, end (both words zero if not hoisted)"
#[tactic(auto, unfolding(def_image::specs::Refusals::stray_access))]
fn stray_access(im: &[u32], k: u32) -> bool
    ensures { result ≡ stray_access im.now k }
{
    cell(im, Section::Identifiers, k, 0) % 4 < 2
        && (cell(im, Section::Identifiers, k, 2) != 0 || cell(im, Section::Identifiers, k, 3) != 0)
}

// Whether pair k is an empty set and another of its identifier follows.
// "value 0, the only one of its identifier (else 4)"
#[tactic(auto, unfolding(def_image::specs::Refusals::empty_not_alone))]
fn empty_not_alone(im: &[u32], k: u32) -> bool
    ensures { result ≡ empty_not_alone im.now k }
{
    cell(im, Section::Pairs, k, 1) == 0
        && next_cell(im, Section::Pairs, k, 0) == cell(im, Section::Pairs, k, 0)
}

// Whether function k has an empty run whose first is not zero.
// "the first of a run with count 0 is unused"
#[tactic(auto, unfolding(def_image::specs::Refusals::stray_in_function))]
fn stray_in_function(im: &[u32], k: u32) -> bool
    ensures { result ≡ stray_in_function im.now k }
{
    let section = Section::Functions;
    stray_first(cell(im, section, k, 1), cell(im, section, k, 2))
        || stray_first(cell(im, section, k, 3), cell(im, section, k, 4))
}

// Whether word j of candidate k is unused and not zero; the code itself is used.
// "Unused words are zero"
#[tactic(auto, unfolding(def_image::specs::Refusals::stray_word))]
fn stray_word(im: &[u32], k: u32, j: u32) -> bool
    ensures { result ≡ stray_word im.now k j }
{
    j != 0 && !uses(im, k, j) && cell(im, Section::Candidates, k, j) != 0
}

// Whether candidate k has an unused word that is not zero.
// "Of an Apply no word but the code is tested."
#[tactic(auto, unfolding(def_image::specs::Refusals::stray_in_candidate))]
fn stray_in_candidate(im: &[u32], k: u32) -> bool
    ensures { result ≡ stray_in_candidate im.now k }
{
    !is_apply(im, k) && any_below(8, |j| stray_word(im, k, j))
}

// Whether the words earn 4.
// "two entries of one key, wrong order, an unused word not zero, or a fresh number not below next"
#[tactic(auto, unfolding(def_image::specs::Refusals::earns_four))]
pub fn earns_four(im: &[u32]) -> bool
    ensures { result ≡ earns_four im.now }
{
    any_record(im, Section::Identifiers, |k| stray_access(im, k))
        || any_record(im, Section::Values, |k| value_too_new(im, k))
        || any_record(im, Section::Pairs, |k| pair_too_new(im, k))
        || any_neighbours(im, Section::Values, |k| values_unordered(im, k))
        || any_neighbours(im, Section::Pairs, |k| pairs_unordered(im, k))
        || any_neighbours(im, Section::Pairs, |k| empty_not_alone(im, k))
        || any_record(im, Section::Functions, |k| stray_in_function(im, k))
        || any_record(im, Section::Candidates, |k| stray_in_candidate(im, k))
}
