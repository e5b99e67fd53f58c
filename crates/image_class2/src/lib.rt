// The sections and cells of an image over its lent words, and whether the words earn refusal 2 (document 01, 'The job image and its program').
// Every function is total: past the end stands 0. Its contract is one equation with the definition of crate `def_image`.
#![tactic(auto)]

ghost use Rattle.std.specs.Prelude.{Bool, ℕ, ◌+◌, ◌-◌, ◌^◌, ◌≡◌, ◌<◌, ◌≤◌, suc};
ghost use Rattle.base_tests.specs.Tests.{any_below};
ghost use Rattle.def_image.specs.Refusals.{any_neighbours, any_record, creates_function, earns_two, is_apply, long_candidate, long_function, misplaced, too_many_records, wrong_edition, wrong_end, wrong_header};
ghost use Rattle.def_image.specs.Layout as Image;
ghost use Rattle.def_image.specs.Layout.{cell, count_of, end_of, offset_of, size_of, start_of, word};
ghost use Rattle.image_class2.specs.Sections.{number_of, SearchesAs};

use lent_slices::get_or;

// The sections of an image, in the order of the header's counts and offsets.
#[derive(Clone, Copy, Debug, PartialEq, Eq)]
pub enum Section {
    Identifiers,
    Values,
    Pairs,
    Places,
    Functions,
    Candidates,
}

// The sections in their order.
const SECTIONS: [Section; 6] = [
    Section::Identifiers,
    Section::Values,
    Section::Pairs,
    Section::Places,
    Section::Functions,
    Section::Candidates,
];

// The words of a record of each section.
const SIZES: [u32; 6] = [4, 3, 2, 5, 5, 8];

// The code of an Apply.
const APPLY: u32 = 12;

// The code of a CreateFunction.
const CREATE_FUNCTION: u32 = 13;

impl Section {
    // Its number in the order of the header.
    pub fn number(self) -> usize
        ensures { result ≡ number_of self }
    {
        self as usize
    }

    // The words of a record.
    // As the six lists of the paper have them.
    pub fn size(self) -> usize
        ensures value { result ≡ size_of (number_of self) }
        ensures most { result ≤ 8 }
    {
        size_of(self) as usize
    }
}

// What a section is told by: its name, and any number in the order of the header, of which those past the sixth tell none.
pub trait AsSection: Copy {
    ghost number: { Self → ℕ };

    fn index(self) -> u32
        ensures { result ≡ number self };
}

impl AsSection for Section {
    ghost number = { number_of };

    fn index(self) -> u32 {
        self.number() as u32
    }
}

impl AsSection for u32 {
    ghost number = { λ n. n };

    fn index(self) -> u32 {
        self
    }
}

// The words of a record of a section.
// As the six lists of the paper have them; a section past the sixth has none.
#[tactic(auto, unfolding(def_image::specs::Layout::size_of))]
pub fn size_of<S: AsSection>(section: S) -> u32
    ensures value { result ≡ size_of (S.number section) }
    ensures most { result ≤ 8 }
{
    get_or(&SIZES, section.index() as usize, 0)
}

// Word i of the image.
// Past the end stands 0.
#[tactic(auto, unfolding(def_image::specs::Layout::word))]
pub fn word(im: &[u32], i: usize) -> u32
    ensures { result ≡ word im.now i }
{
    get_or(im, i, 0)
}

// How many records a section has, as the header says.
// "then count and word offset of six sections"
#[tactic(auto, unfolding(def_image::specs::Layout::count_of))]
pub fn count_of<S: AsSection>(im: &[u32], section: S) -> u32
    ensures { result ≡ count_of im.now (S.number section) }
{
    word(im, 5 + 2 * section.index() as usize)
}

// Where a section begins, as the header says.
// "then count and word offset of six sections"
#[tactic(auto, unfolding(def_image::specs::Layout::offset_of))]
pub fn offset_of<S: AsSection>(im: &[u32], section: S) -> u32
    ensures { result ≡ offset_of im.now (S.number section) }
{
    word(im, 6 + 2 * section.index() as usize)
}

// Where a section ends.
// Wide: a count times a size passes 32 bits.
#[tactic(auto, using(crate::proofs::Laws::Layout::span_fits), unfolding(def_image::specs::Layout::end_of))]
pub fn end_of<S: AsSection>(im: &[u32], section: S) -> usize
    ensures { result ≡ end_of im.now (S.number section) }
{
    offset_of(im, section) as usize + count_of(im, section) as usize * size_of(section) as usize
}

// Where a section has to begin: after the header, or where the one before it ends.
// "which follow in order without gaps"
#[tactic(auto, unfolding(def_image::specs::Layout::start_of))]
pub fn start_of<S: AsSection>(im: &[u32], section: S) -> usize
    ensures { result ≡ start_of im.now (S.number section) }
{
    match section.index() {
        0 => 17,
        i => end_of(im, i - 1),
    }
}

// Word j of a record of a section.
// Wide: a number of a record times a size passes 32 bits; a sum of two numbers is the number of a record too.
#[tactic(auto, using(crate::proofs::Laws::Layout::span_fits), unfolding(def_image::specs::Layout::cell))]
fn cell_at<S: AsSection>(im: &[u32], section: S, k: usize, j: u32) -> u32
    requires { k ≤ 2 ^ 33 }
    ensures { result ≡ cell im.now (S.number section) k j }
{
    word(
        im,
        offset_of(im, section) as usize + k * size_of(section) as usize + j as usize,
    )
}

// Word j of record k of a section.
pub fn cell<S: AsSection>(im: &[u32], section: S, k: u32, j: u32) -> u32
    ensures { result ≡ cell im.now (S.number section) k j }
{
    cell_at(im, section, k as usize, j)
}

// Word j of record i of a run of records of a section, from record `first` on.
// A sum of two numbers is the number of a record too.
pub fn cell_in_run(im: &[u32], section: Section, first: u32, i: u32, j: u32) -> u32
    ensures { result ≡ cell im.now (number_of section) (first + i) j }
{
    cell_at(im, section, first as usize + i as usize, j)
}

// Word j of the record after record k of a section.
// Orders are tested of each two that follow one another.
pub fn next_cell<S: AsSection>(im: &[u32], section: S, k: u32, j: u32) -> u32
    ensures { result ≡ cell im.now (S.number section) (suc k) j }
{
    cell_at(im, section, k as usize + 1, j)
}

// Whether a number below n passes a test.
// Where the test answers as a definition `f` does, so does the search.
pub fn any_below<F: Fn(u32) -> bool>(n: u32, test: F) -> bool
    requires { F.IsAlwaysCallable test }
    ensures { SearchesAs (F.post test) (any_below n) result }
{
    (0..n).any(test)
}

// Whether a record of a section passes a test.
#[tactic(auto, unfolding(def_image::specs::Refusals::any_record))]
pub fn any_record<F: Fn(u32) -> bool>(im: &[u32], section: Section, test: F) -> bool
    requires { F.IsAlwaysCallable test }
    ensures { SearchesAs (F.post test) (any_record im.now (number_of section)) result }
{
    any_below(count_of(im, section), test)
}

// The same, of the records that have one after them.
// Orders are tested of each two that follow one another.
#[tactic(auto, unfolding(def_image::specs::Refusals::any_neighbours))]
pub fn any_neighbours<F: Fn(u32) -> bool>(im: &[u32], section: Section, test: F) -> bool
    requires { F.IsAlwaysCallable test }
    ensures { SearchesAs (F.post test) (any_neighbours im.now (number_of section)) result }
{
    any_below(count_of(im, section).saturating_sub(1), test)
}

// Whether candidate k is an Apply.
#[tactic(auto, unfolding(def_image::specs::Refusals::is_apply))]
pub fn is_apply(im: &[u32], k: u32) -> bool
    ensures { result ≡ is_apply im.now k }
{
    cell(im, Section::Candidates, k, 0) == APPLY
}

// Whether candidate k is a CreateFunction.
// Only such a candidate has captures.
#[tactic(auto, unfolding(def_image::specs::Refusals::creates_function))]
pub fn creates_function(im: &[u32], k: u32) -> bool
    ensures { result ≡ creates_function im.now k }
{
    cell(im, Section::Candidates, k, 0) == CREATE_FUNCTION
}

// Whether the edition is wrong.
// "edition 1"
#[tactic(auto, unfolding(def_image::specs::Refusals::wrong_edition))]
pub fn wrong_edition(im: &[u32]) -> bool
    ensures { result ≡ wrong_edition im.now }
{
    word(im, 0) != 1
}

// Whether a section has too many records.
// "identifiers (at most 512)", "functions (64)", "candidates (64)"
#[tactic(auto, unfolding(def_image::specs::Refusals::too_many_records))]
pub fn too_many_records(im: &[u32]) -> bool
    ensures { result ≡ too_many_records im.now }
{
    count_of(im, Section::Identifiers) > 512
        || count_of(im, Section::Functions) > 64
        || count_of(im, Section::Candidates) > 64
}

// Whether a section begins elsewhere than it has to.
// "six sections, which follow in order without gaps"
#[tactic(auto, unfolding(def_image::specs::Refusals::misplaced))]
pub fn misplaced<S: AsSection>(im: &[u32], section: S) -> bool
    ensures { result ≡ misplaced im.now (S.number section) }
{
    offset_of(im, section) as usize != start_of(im, section)
}

// Whether one of the six sections begins elsewhere than it has to.
// "six sections, which follow in order without gaps"
fn any_misplaced(im: &[u32]) -> bool
    ensures { result ≡ any_below 6 (misplaced im.now) }
{
    SECTIONS.iter().any(|section| misplaced(im, *section))
}

// Whether the image ends elsewhere than its last section.
// "nothing after the last section (else 2)"
#[tactic(auto, unfolding(def_image::specs::Refusals::wrong_end))]
pub fn wrong_end(im: &[u32]) -> bool
    ensures { result ≡ wrong_end im.now }
{
    im.len() != end_of(im, Section::Candidates)
}

// Whether edition, a count, an offset or the length is wrong.
// It is tested first, so that no loop runs over a wrong count.
#[tactic(auto, unfolding(def_image::specs::Refusals::wrong_header))]
pub fn wrong_header(im: &[u32]) -> bool
    ensures { result ≡ wrong_header im.now }
{
    wrong_edition(im) || too_many_records(im) || any_misplaced(im) || wrong_end(im)
}

// Whether function k has too many places.
// "context places (16)", "places mutated inside (32)"
#[tactic(auto, unfolding(def_image::specs::Refusals::long_function))]
pub fn long_function(im: &[u32], k: u32) -> bool
    ensures { result ≡ long_function im.now k }
{
    cell(im, Section::Functions, k, 2) > 16 || cell(im, Section::Functions, k, 4) > 32
}

// Whether candidate k has too many captures.
// "captures (16)", which only a CreateFunction has
#[tactic(auto, unfolding(def_image::specs::Refusals::long_candidate))]
pub fn long_candidate(im: &[u32], k: u32) -> bool
    ensures { result ≡ long_candidate im.now k }
{
    creates_function(im, k) && cell(im, Section::Candidates, k, 7) > 16
}

// Whether the words earn 2.
// "edition, count or offset is wrong, or a count is above its limit"
#[tactic(auto, unfolding(def_image::specs::Refusals::earns_two))]
pub fn earns_two(im: &[u32]) -> bool
    ensures { result ≡ earns_two im.now }
{
    wrong_header(im)
        || any_record(im, Section::Functions, |k| long_function(im, k))
        || any_record(im, Section::Candidates, |k| long_candidate(im, k))
}
