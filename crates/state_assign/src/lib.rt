// The sets of a state, written: `assign`, with the own value of a place that has none, and the union of a phi.
#![tactic(auto)]

ghost use Rattle.std.specs.Prelude.{◌≡◌};
ghost use Rattle.state_ops.specs.Lists.{own_inserted, assigned_values, assigned_sets, own_sets, phi_sets};

use def_kinds::DEFAULT;
use lent_members::is_empty;
use lent_set_writes::{add_set, copy_set, define, put_set};
use lent_sets::is_defined;
use lent_values::{put_value, value_at};

// The own value of a place gets Mutable {Other}, unless it has an entry.
// An assignment from a place that is not defined makes it so.
pub fn insert_own(values: &mut [u64], from: u32)
    ensures { values.new ≡ own_inserted values.old from }
{
    let v = 512 + (from as usize);
    if value_at(values, v).is_none() {
        put_value(values, v, DEFAULT);
    }
}

// A place gets the own value of another as its set.
// There is no value past 1,023.
pub fn define_own(sets: &mut [u64], into: u32, from: u32)
    ensures { sets.new ≡ own_sets sets.old into from }
{
    if from < 512 {
        define(sets, into, 512 + from);
    } else {
        define(sets, into, 1024);
    }
}

// A place gets the set of another; one that is not defined gives its own value.
// This is assign of the Rust.
pub fn assign(values: &mut [u64], sets: &mut [u64], into: u32, from: u32)
    ensures { (values.new ≡ assigned_values values.old sets.old from)
        × (sets.new ≡ assigned_sets sets.old into from) }
{
    if is_defined(sets, from) {
        copy_set(sets, into, from);
    } else {
        insert_own(values, from);
        define_own(sets, into, from);
    }
}

// A place gets the union of the sets of its operands, unless that is empty; operands that are not defined add nothing.
// This is infer_phi of the Rust.
pub fn infer_phi(sets: &mut [u64], place: u32, operands: &[u32])
    ensures { sets.new ≡ phi_sets sets.old place operands.now }
{
    let mut acc = [0u64; 16];
    for &i in operands {
        add_set(&mut acc, sets, i);
    }
    if !is_empty(&acc) {
        put_set(sets, place, &acc);
    }
}
