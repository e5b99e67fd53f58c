// A benchmark: repeats one operation of a state on a sparse or on a full table. Arguments: operation, table (0 sparse, 1 full), and the power of ten of repetitions.
// It prints a number that depends on the answers; `tools/bench_state.py` times it.
#![tactic(auto)]

use def_kinds::DEFAULT;
use def_refusals::class_of;
use std::io;
use test_bytes::{digit, fill_state, session};

// Repetitions: a power of ten, up to a million.
fn power(e: u32) -> u32 {
    match e {
        0..=6 => 10u32.saturating_pow(e),
        _ => 1,
    }
}

// The table of a run: full, or one entry and two places.
fn fill(values: &mut [u64], sets: &mut [u64], is_full: bool) {
    if is_full {
        fill_state(values, sets);
        return;
    }
    lent_values::put_value(values, 1, DEFAULT);
    lent_set_writes::define(sets, 0, 1);
    lent_set_writes::define(sets, 1, 1);
}

// Value 1 is Mutable {Other} again, so that the next freeze of its place acts: with frozen ones beside it the place is MaybeFrozen.
fn thaw(values: &mut [u64]) {
    lent_values::put_value(values, 1, DEFAULT);
}

// The first state is empty again, so that the next merge adds all of the second.
fn empty(values: &mut [u64], sets: &mut [u64]) {
    state_merge::clear_words(values);
    state_merge::clear_words(sets);
}

// One operation: 1 to 4 are kind, freeze, merge_from and phi of the covered core, 5 to 8 the public calls of the same.
// Each freeze acts and each merge adds; 9 is the emptying that comes before a merge, alone.
fn once(op: u32, values: &mut [u64], sets: &mut [u64], values2: &[u64], sets2: &[u64]) -> u32 {
    let now = session(512);
    match op {
        1 => state_ops::kind_of(values, sets, 0).reason,
        2 => {
            thaw(values);
            u32::from(state_freeze::freeze(values, sets, 0, 1))
        }
        3 => {
            empty(values, sets);
            state_merge_lists::merge_values(values, values2);
            state_merge_lists::merge_sets(sets, sets2);
            0
        }
        4 => {
            state_assign::infer_phi(sets, 0, &[0u32, 1]);
            0
        }
        5 => class_of(state_read_kinds::kind(values, sets, now, 0).map(|_| ())),
        6 => {
            thaw(values);
            u32::from(state_write_values::freeze(values, sets, now, 0, 1).unwrap_or(false))
        }
        7 => {
            empty(values, sets);
            let merged = state_merge_calls::merge_from(
                values, sets, false, values2, sets2, false, now,
            );
            class_of(merged.map(|_| ()))
        }
        8 => class_of(state_phi::infer_phi(values, sets, now, 0, &[0u32, 1])),
        _ => {
            empty(values, sets);
            0
        }
    }
}

fn main(rt: HostRuntime) -> io::Result<()> {
    let op = digit(&rt, 1);
    let is_full = digit(&rt, 2) == 1;
    let times = power(digit(&rt, 3));
    let mut values = [0u64; 1024];
    let mut sets = [0u64; 8192];
    let mut values2 = [0u64; 1024];
    let mut sets2 = [0u64; 8192];
    fill(&mut values, &mut sets, is_full);
    fill(&mut values2, &mut sets2, is_full);
    let mut last = 0;
    for _ in 0..times {
        last = once(op, &mut values, &mut sets, &values2, &sets2);
    }
    println!(rt; "{last}")
}
