// Refusals 3 and 4 of a single word of values, a single row of sets, and the numbers beside them; the definition of a state's refusal.
#![tactic(auto)]

ghost use Rattle.std.specs.Prelude.{◌≡◌, not};
ghost use Rattle.def_kinds.specs.Reasons.{are_reasons};
ghost use Rattle.def_transfer.specs.Accepted.{not_anumber, not_yet_handed_out};
ghost use Rattle.refuse_entries.specs.Words.{word_out_of_range, word_unfit, next_out_of_range, access_out_of_range};

use def_kinds::are_reasons;

// Whether v is no value number: 0, or 512 + i where identifier i is not in the list of n.
// Entries, members and arguments of calls are tested by it.
#[tactic(auto, unfolding(def_transfer::specs::Accepted::not_anumber))]
pub fn number_out_of_range(v: u32, n: usize) -> bool
    ensures { result ≡ not_anumber n v }
{
    v == 0 || (v as usize) >= n.saturating_add(512)
}

// Whether v is a fresh number that is not below next.
// Such a number was not handed out yet.
#[tactic(auto, unfolding(def_transfer::specs::Accepted::not_yet_handed_out))]
pub fn number_too_new(v: u32, next: u32) -> bool
    ensures { result ≡ not_yet_handed_out next v }
{
    v < 512 && v >= next
}

// Whether a word is no set of reasons.
// The bits above a kind are more than 32, of which none past the last reason may be set.
#[tactic(auto, using(crate::proofs::Laws::Word::reasons_past))]
fn reasons_out_of_range(y: u64) -> bool
    ensures { result ≡ not (are_reasons y) }
{
    y >= 4294967296 || !are_reasons(y as u32)
}

// Whether the word x at value number v earns 3: an entry at no number, of no kind, or with a bit that is no reason.
// A word without an entry has nothing that could be out of range.
#[tactic(auto, unfolding(crate::specs::Words::word_out_of_range, crate::specs::Words::has_entry))]
pub fn value_out_of_range(x: u64, v: u32, n: u32) -> bool
    ensures { result ≡ word_out_of_range n v x }
{
    x % 8 != 0 && (number_out_of_range(v, n as usize) || x % 8 == 7 || reasons_out_of_range(x / 8))
}

// Whether the word x at value number v earns 4: an entry at a number not handed out yet, or no entry and a word that is not zero.
// The reasons' bits of a word without an entry are unused.
#[tactic(auto, unfolding(crate::specs::Words::word_unfit, crate::specs::Words::has_entry))]
pub fn value_unfit(x: u64, v: u32, next: u32) -> bool
    ensures { result ≡ word_unfit next v x }
{
    if x % 8 == 0 {
        x != 0
    } else {
        number_too_new(v, next)
    }
}

// Whether the session's next number is not one of 1..512.
// At 512 all fresh numbers are handed out.
#[tactic(auto, unfolding(crate::specs::Words::next_out_of_range))]
pub fn next_out_of_range(next: u32) -> bool
    ensures { result ≡ next_out_of_range next }
{
    next == 0 || next > 512
}

// Whether the session's first access is neither 0 nor 1 + an identifier in the list of n.
#[tactic(auto, unfolding(crate::specs::Words::access_out_of_range))]
pub fn access_out_of_range(access: u32, n: u32) -> bool
    ensures { result ≡ access_out_of_range n access }
{
    access > n
}
