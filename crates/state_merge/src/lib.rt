// Two states, each lent as a list of words for its values and one for its sets: what one adds to the other, and merges.
// Each function is total and says by an equation what the definition makes of the lists. After merge and merge_from of the Rust.
#![tactic(auto)]

ghost use Rattle.std.specs.Prelude.{◌≡◌, length, replicate};
ghost use Rattle.def_transfer.specs.Merge.{adds};
ghost use Rattle.state_adds.specs.Lists.{copy_words, merged_values, merged_sets};
ghost use Rattle.refuse_entries.specs.Words.{entries};

use lent_slices::{get_or, set};
use state_adds::adds;
use state_merge_lists::{merge_sets, merge_values};

// A list gets the words of another; a word past either end is left alone.
// A merge into a third state starts from a copy of the first.
pub fn copy_words(into: &mut [u64], from: &[u64])
    ensures { into.new ≡ copy_words into.old from.now }
{
    for k in 0..from.len() {
        let x = get_or(from, k, 0);
        set(into, k, x);
    }
}

// Every word of a list becomes 0.
// A state so has no entry and no defined identifier.
pub fn clear_words(words: &mut [u64])
    ensures { words.new ≡ replicate (length words.old) 0 }
{
    words.fill(0);
}

// A third state gets the join of two, where the second adds to the first; else it becomes empty. The answer says which.
// This is merge of the Rust, where an empty third state stands for None.
pub fn merge_into(
    values1: &[u64],
    sets1: &[u64],
    values2: &[u64],
    sets2: &[u64],
    values3: &mut [u64],
    sets3: &mut [u64],
) -> bool
    ensures { (result ≡ adds (entries values1.now sets1.now) (entries values2.now sets2.now))
        × (values3.new ≡ merged_values result values3.old values1.now values2.now)
        × (sets3.new ≡ merged_sets result sets3.old sets1.now sets2.now) }
{
    if adds(values1, sets1, values2, sets2) {
        copy_words(values3, values1);
        merge_values(values3, values2);
        copy_words(sets3, sets1);
        merge_sets(sets3, sets2);
        return true;
    }
    clear_words(values3);
    clear_words(sets3);
    false
}
