// Refusal 3 of single words of a job image: flags, identifiers, value numbers, runs of places.
#![tactic(auto)]

ghost use Rattle.std.specs.Prelude.{◌&&◌, ◌≡◌, leb};
ghost use Rattle.def_image.specs.Refusals.{are_flags, is_in, is_number, passes_end};
ghost use Rattle.def_image.specs.Layout.{word};

use image_class2::{AsSection, Section, count_of, word};

// Whether a word is two flags.
// "options (bit 0 .., bit 1 ..)", "flags (1 ref, 2 hoisted)"
#[tactic(auto, unfolding(def_image::specs::Refusals::are_flags))]
pub fn are_flags(w: u32) -> bool
    ensures { result ≡ are_flags w }
{
    w < 4
}

// Whether a section has a record i.
// Its index is below the section's count.
#[tactic(auto, unfolding(def_image::specs::Refusals::is_in))]
pub fn is_in<S: AsSection>(im: &[u32], section: S, i: u32) -> bool
    ensures { result ≡ is_in im.now (S.number section) i }
{
    i < count_of(im, section)
}

// Whether v is a value number.
// "Value numbers are 1..1023"; "here and in pairs 512 + i needs identifier i in the list, else 3". Wide: 512 + a count passes 32 bits.
#[tactic(auto, unfolding(def_image::specs::Refusals::is_number))]
pub fn is_number(im: &[u32], v: u32) -> bool
    ensures { result ≡ is_number im.now v }
{
    v >= 1 && u64::from(v) < 512 + u64::from(count_of(im, Section::Identifiers))
}

// Whether a run of places passes their end.
// An empty run has no first and no end. Wide: first + count passes 32 bits.
#[tactic(auto, unfolding(def_image::specs::Refusals::passes_end))]
pub fn passes_end(im: &[u32], first: u32, count: u32) -> bool
    ensures { result ≡ passes_end im.now first count }
{
    count != 0 && u64::from(first) + u64::from(count) > u64::from(count_of(im, Section::Places))
}

// Whether the next number is one.
// "next number 1..512"
pub fn next_in_range(im: &[u32]) -> bool
    ensures { result ≡ (leb 1 (word im.now 2) && leb (word im.now 2) 512) }
{
    (1..=512).contains(&word(im, 2))
}
