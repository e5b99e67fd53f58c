// The refusals that a word, a run of unused words and a place earn, and what the words of a place have to lie below.
// A limit is none for a word without use, else the number that the word has to lie below.
#![tactic(auto)]

ghost use Rattle.std.specs.Prelude.{◌≡◌, ◌<◌, ℕ, Option};
ghost use Rattle.base_tests.specs.Tests.{ite};
ghost use Rattle.def_refusals.specs.Verdicts.{number_of, class_of};
ghost use Rattle.refuse_words.specs.Classes as Classes;
ghost use Rattle.refuse_words.specs.Classes.{lowest_below, record_class, word_class, used_if, place_limit, run_limit, stray_from, stray_after};

use def_refusals::{Refusal, Verdict};
use lent_tables::Table;
use refuse_class::lower;

// The limit of a word that any number may stand in.
pub const ANY: Option<u64> = Some(4294967296);

// What a test earns where it holds: a refusal, and a class by its number, whatever it is, of which 0 is none.
pub trait Earned {
    type Class;

    ghost number: { Self → ℕ };

    ghost class: { Self.Class → ℕ };

    fn earned(self, b: bool) -> Self::Class
        ensures { class result ≡ Classes.earns (number self) b };
}

impl Earned for Refusal {
    type Class = Verdict;

    ghost number = { number_of };

    ghost class = { class_of };

    fn earned(self, b: bool) -> Verdict {
        if b { Err(self) } else { Ok(()) }
    }
}

impl Earned for u32 {
    type Class = u32;

    ghost number = { λ n. n };

    ghost class = { λ n. n };

    fn earned(self, b: bool) -> u32 {
        if b { self } else { 0 }
    }
}

// A refusal where a test holds.
// Each rule of document 01 is a test with its refusal.
pub fn earns<E: Earned>(refusal: E, b: bool) -> E::Class
    ensures { E.class result ≡ Classes.earns (E.number refusal) b }
{
    refusal.earned(b)
}

// What a word earns by its limit: Order where it has no use and is not zero, Range where it does not lie below.
#[tactic(auto, unfolding(crate::specs::Classes::word_class))]
pub fn word_class(limit: Option<u64>, x: u32) -> Verdict
    ensures { class_of result ≡ word_class limit x }
{
    match limit {
        None => earns(Refusal::Order, x != 0),
        Some(limit) => earns(Refusal::Range, x as u64 >= limit),
    }
}

// A limit for a word that is used, else none.
pub fn used_if(u: bool, limit: Option<u64>) -> Option<u64>
    ensures { result ≡ used_if (ite u 1 0) limit }
{
    if u { limit } else { None }
}

// What word w of a place has to lie below.
// Identifier, effect, reactive, and a span of any two words.
#[tactic(auto, unfolding(crate::specs::Classes::place_limit))]
pub fn place_limit(identifiers: u32, w: usize) -> Option<u64>
    ensures { result ≡ place_limit identifiers w }
{
    match w {
        0 => Some(identifiers as u64),
        1 => Some(8),
        2 => Some(2),
        3 | 4 => ANY,
        _ => None,
    }
}

// What word w of a run of places has to lie below, of which n are used.
// The words after the last place have no use.
#[tactic(auto, unfolding(crate::specs::Classes::run_limit))]
pub fn run_limit(identifiers: u32, n: u32, w: usize) -> Option<u64>
    ensures { result ≡ run_limit identifiers n w }
{
    used_if(w / 5 < (n as usize), place_limit(identifiers, w % 5))
}

// The lowest that any of n tests earns.
pub fn lowest<F: Fn(usize) -> Verdict>(n: usize, test: F) -> Verdict
    requires { (k : ℕ) → k < n → F.pre test k }
    ensures { (classes : ℕ → ℕ)
        → ((k : ℕ) (v : _) → k < n → F.post test k v → class_of v ≡ classes k)
        → class_of result ≡ lowest_below n classes }
{
    let mut worst = Ok(());
    for k in 0..n {
        worst = lower(worst, test(k));
    }
    worst
}

// What a record earns: the lowest of what its words earn, by a limit for each.
pub fn record_class<F: Fn(usize) -> Option<u64>>(
    t: Table,
    xs: &[u32],
    i: usize,
    limit: F,
) -> Verdict
    requires { F.IsAlwaysCallable limit }
    ensures { (limits : ℕ → Option ℕ)
        → ((w : ℕ) (l : _) → w < t.width → F.post limit w l → l ≡ limits w)
        → class_of result ≡ record_class t xs.now limits i }
{
    lowest(
        t.width as usize,
        |w| word_class(limit(w), t.field(xs, i, w)),
    )
}

// How many words of a lent list stand from one on, at most n.
// What stands past the end of the list counts as zero.
#[tactic(auto, unfolding(crate::specs::Classes::lent_from))]
fn lent_from(xs: &[u32], from: usize, n: usize) -> usize
    ensures { result ≡ Classes.lent_from xs.now from n }
{
    xs.len().saturating_sub(from).min(n)
}

// What n words without use earn, from one on: Order where one of them is not zero.
// The words are gathered bit by bit, so that the loop has one read for each word and no branch.
pub fn stray_from(xs: &[u32], from: usize, n: usize) -> Verdict
    ensures { class_of result ≡ stray_from xs.now from n }
{
    let m = lent_from(xs, from, n);
    let mut all: u32 = 0;
    for k in 0..m {
        all |= xs[from + k];
    }
    earns(Refusal::Order, all != 0)
}

// What the words of a table after its first n records earn.
pub fn stray_after(t: Table, xs: &[u32], n: usize) -> Verdict
    ensures { class_of result ≡ stray_after t xs.now n }
{
    if n >= (t.count as usize) {
        return Ok(());
    }
    let from = t.base as usize + n * (t.width as usize);
    let left = (t.count as usize - n) * (t.width as usize);
    stray_from(xs, from, left)
}
