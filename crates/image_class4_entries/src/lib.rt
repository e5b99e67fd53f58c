// Refusal 4 of single values and pairs of a job image: numbers that are not handed out yet, and order.
#![tactic(auto)]

ghost use Rattle.std.specs.Prelude.{◌≡◌};
ghost use Rattle.def_image.specs.Refusals.{not_yet_fresh, pairs_unordered, values_unordered};
ghost use Rattle.def_image.specs.Layout.{cell};

use image_class2::{Section, cell, next_cell, word};

// Whether v is a fresh number that is not below next.
// "1..511 are fresh", "or a fresh number not below next"
#[tactic(auto, unfolding(def_image::specs::Refusals::not_yet_fresh))]
fn not_yet_fresh(im: &[u32], v: u32) -> bool
    ensures { result ≡ not_yet_fresh im.now v }
{
    (1..512).contains(&v) && v >= word(im, 2)
}

// Whether the number of value k is fresh and not below next.
// "or a fresh number not below next"
pub fn value_too_new(im: &[u32], k: u32) -> bool
    ensures { result ≡ not_yet_fresh im.now (cell im.now 1 k 0) }
{
    not_yet_fresh(im, cell(im, Section::Values, k, 0))
}

// Whether the value of pair k is fresh and not below next.
// "or a fresh number not below next"
pub fn pair_too_new(im: &[u32], k: u32) -> bool
    ensures { result ≡ not_yet_fresh im.now (cell im.now 2 k 1) }
{
    not_yet_fresh(im, cell(im, Section::Pairs, k, 1))
}

// Whether the value after value k has no higher number.
// "values: number .., ascending", so no two of one number
#[tactic(auto, unfolding(def_image::specs::Refusals::values_unordered))]
pub fn values_unordered(im: &[u32], k: u32) -> bool
    ensures { result ≡ values_unordered im.now k }
{
    next_cell(im, Section::Values, k, 0) <= cell(im, Section::Values, k, 0)
}

// Whether the pair after pair k does not ascend.
// "pairs: identifier, value, ascending", so no two alike
#[tactic(auto, unfolding(def_image::specs::Refusals::pairs_unordered))]
pub fn pairs_unordered(im: &[u32], k: u32) -> bool
    ensures { result ≡ pairs_unordered im.now k }
{
    let next = (
        next_cell(im, Section::Pairs, k, 0),
        next_cell(im, Section::Pairs, k, 1),
    );
    let pair = (
        cell(im, Section::Pairs, k, 0),
        cell(im, Section::Pairs, k, 1),
    );
    next <= pair
}
