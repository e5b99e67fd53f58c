// The entries of another state merged into a state: values, then sets.
#![tactic(auto)]

ghost use Rattle.std.specs.Prelude.{◌≡◌};
ghost use Rattle.state_adds.specs.Lists.{put_entry, merge_value, merge_values, merge_set, merge_sets, rows_of};

use def_kinds::AbstractValue;
use lent_set_writes::{add_set, put_set};
use lent_values::{join_entries, put_value, value_at};
use state_adds::{adds_set, adds_value, row_count};

// Value v gets an entry; nothing changes for none.
fn put_entry(values: &mut [u64], v: usize, e: Option<AbstractValue>)
    ensures { values.new ≡ put_entry values.old v e }
{
    if let Some(a) = e {
        put_value(values, v, a);
    }
}

// The entry of value v is joined with that of the second state, where that adds to it.
// A turn of `merge_values`.
fn merge_value(values: &mut [u64], other: &[u64], v: usize)
    ensures { values.new ≡ merge_value other.now v values.old }
{
    if adds_value(values, other, v) {
        let a = value_at(values, v);
        let b = value_at(other, v);
        put_entry(values, v, join_entries(a, b));
    }
}

// The entries of the second state are joined onto those of the first.
pub fn merge_values(values: &mut [u64], other: &[u64])
    ensures { values.new ≡ merge_values values.old other.now }
{
    for v in 0usize..1024 {
        merge_value(values, other, v);
    }
}

// Identifier i gets the members of its set in the second state too, where that adds to it.
// A turn of `merge_sets`; one that was not defined becomes so.
fn merge_set(sets: &mut [u64], other: &[u64], i: u32)
    ensures { sets.new ≡ merge_set other.now i sets.old }
{
    if adds_set(sets, other, i) {
        let mut acc = [0u64; 16];
        add_set(&mut acc, sets, i);
        add_set(&mut acc, other, i);
        put_set(sets, i, &acc);
    }
}

// The sets of the second state are joined onto those of the first, in the rows that the first list has.
pub fn merge_sets(sets: &mut [u64], other: &[u64])
    ensures { sets.new ≡ merge_sets (rows_of sets.old) sets.old other.now }
{
    let n = row_count(sets.len());
    for i in 0..n {
        merge_set(sets, other, i);
    }
}
