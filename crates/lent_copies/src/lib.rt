// Clearing lent words, and copying runs of them: what the call for an instruction does with its output list and its scratch.
// After a refusal the tables are as before; scratch is zero after each call.
#![tactic(auto)]

ghost use Rattle.std.specs.Prelude.{◌≡◌};
ghost use Rattle.lent_copies.specs.Copies.{copied_or};
ghost use Rattle.lent_copies.specs.Cleared.{Cleared};

use lent_slices::{get_or, set};

// All that is lent as scratch becomes zero.
// "Scratch is zero after each call."
#[tactic(auto, unfolding(crate::specs::Copies::zeros))]
pub fn clear_scratch(scratch64: &mut [u64], scratch32: &mut [u32])
    ensures { Cleared scratch64.old scratch64.new × Cleared scratch32.old scratch32.new }
{
    scratch64.fill(0);
    scratch32.fill(0);
}

// n elements from `start` on are copied to another slice, from `at` on.
// What lies past the first's end is read as `other`, what lies past the second's is not written.
// Where both have them all they are copied at once, as fast as memory does it.
pub fn copy<T: Copy>(from: &[T], start: u32, to: &mut [T], at: u32, n: u32, other: T)
    ensures { to.new ≡ copied_or other from.now start at n to.old }
{
    let start = start as usize;
    let at = at as usize;
    let n = n as usize;
    if start + n <= from.len() && at + n <= to.len() {
        to[at..at + n].copy_from_slice(&from[start..start + n]);
        return;
    }
    for k in 0..n {
        let x = get_or(from, start + k, other);
        set(to, at + k, x);
    }
}
