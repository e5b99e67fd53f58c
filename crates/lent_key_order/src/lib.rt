// Which of two keys of effects comes first: their heads, then the identifiers of their captures.
#![tactic(auto)]

ghost use Rattle.std.specs.Prelude.{◌≡◌, true};
ghost use Rattle.base_search.specs.Comparings.{compare_lists};
ghost use Rattle.def_key_order.specs.KeyOrder.{compare_keys};
ghost use Rattle.lent_keys.specs.KeyRecords.{listed, whole};
ghost use Rattle.lent_key_order.specs.Heads.{compare_heads};
ghost use Rattle.lent_key_order.specs.Runs.{Past};

use lent_keys::{Key, Numbers, WholeKey};
use std::cmp::Ordering;

// Two keys, but for their captures.
// Code, source, destination; then kind, reason, function, identity.
pub fn compare_heads(a: Key, b: Key) -> Ordering
    ensures { result ≡ compare_heads a b }
{
    a.cmp(&b)
}

// Whether number k of a run lies past the words of its record, as all after it do.
// There every number reads as 0.
fn is_past(run: Numbers, k: u32) -> bool
    ensures { result ≡ true → Past run.entry.table run.entry.step k }
{
    run.step != 0 && k >= run.table.width
}

// Two runs of numbers, each in a record.
// One after the other; a run that ends first comes first. A count may be any word: past both records only the counts are left to compare.
pub fn compare_runs(a: Numbers, b: Numbers) -> Ordering
    ensures { result ≡ compare_lists (listed a.entry) (listed b.entry) }
{
    for k in 0..a.count {
        if k >= b.count {
            return Ordering::Greater;
        }
        if is_past(a, k) && is_past(b, k) {
            return a.count.cmp(&b.count);
        }
        let o = a.get(k).cmp(&b.get(k));
        if o.is_ne() {
            return o;
        }
    }
    a.count.cmp(&b.count)
}

// Two keys, each with the identifiers of captures beside it.
// Captures are compared only where the rest is equal.
#[tactic(auto, using(crate::proofs::Laws::Heads::heads_decide))]
pub fn compare_keys(a: WholeKey, b: WholeKey) -> Ordering
    ensures { result ≡ compare_keys (whole a.entry) (whole b.entry) }
{
    let captures = || -> Ordering
        ensures { result ≡ compare_lists (whole a.entry).captures (whole b.entry).captures }
    { compare_runs(a.captures(), b.captures()) };
    compare_heads(a.head, b.head).then_with(captures)
}
