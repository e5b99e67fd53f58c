// The class of refusal that the words of an image earn: 2 to 5, the lowest first (document 01, 'Refused calls').
// Every contract is one equation with the definition of crate `def_image`.
#![tactic(auto)]

ghost use Rattle.std.specs.Prelude.{◌≡◌};
ghost use Rattle.def_image.specs.Refusals.{earns_five, refusal_of_words};
ghost use Rattle.def_refusals.specs.Verdicts.{class_of};

use def_refusals::{Refusal, Verdict};
use image_class2::{Section, any_record, earns_two, is_apply};
use image_class3_candidates::earns_three;
use image_class4::earns_four;

// Whether the words earn 5.
// "a candidate is Apply"
#[tactic(auto, unfolding(def_image::specs::Refusals::earns_five))]
pub fn earns_five(im: &[u32]) -> bool
    ensures { result ≡ earns_five im.now }
{
    any_record(im, Section::Candidates, |k| is_apply(im, k))
}

// The lowest of the classes 2 to 5 that the words of an image earn, if they earn one.
// "Order 1 to 5 over the whole input"
#[tactic(auto, unfolding(def_image::specs::Refusals::refusal_of_words))]
pub fn words_refusal(im: &[u32]) -> Verdict
    ensures { class_of result ≡ refusal_of_words im.now }
{
    if earns_two(im) {
        Err(Refusal::Count)
    } else if earns_three(im) {
        Err(Refusal::Range)
    } else if earns_four(im) {
        Err(Refusal::Order)
    } else if earns_five(im) {
        Err(Refusal::Apply)
    } else {
        Ok(())
    }
}
