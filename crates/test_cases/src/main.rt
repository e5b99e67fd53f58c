// Document 01's worked cases 2 to 9 and 14, through the public calls: one line each, and 'stdout' has the lines that the paper states.
// Kinds and reasons are printed by their numbers: Other is bit 11 of the reasons, 2048, and State bit 1, 2.
#![tactic(auto)]

use def_kinds::{AbstractValue, ValueKind};
use def_refusals::Refusal;
use state_calls::KindAnswer;
use std::io;
use test_bytes::session;

// Value v gets a kind and reasons.
fn put(values: &mut [u64], sets: &[u64], v: u32, kind: ValueKind, reason: u32) {
    let _ = state_write_values::initialize(
        values,
        sets,
        session(512),
        v,
        AbstractValue { kind, reason },
    );
}

// Place 0 gets the values 1 and 2.
fn both(values: &[u64], sets: &mut [u64]) {
    let _ = state_write_sets::define(values, sets, session(512), 0, 1);
    let _ = state_write_sets::define(values, sets, session(512), 1, 2);
    let _ = state_write_sets::append_alias(values, sets, session(512), 0, 1);
}

// A line: case, refusal, kind, reasons, first access.
fn say_kind(rt: &impl Print, n: u32, answer: Result<KindAnswer, Refusal>) -> io::Result<()> {
    match answer {
        Ok(a) => println!(rt;
            "case {n}: refusal 0, kind {}, reasons {}, access {}",
            a.value.kind as u32, a.value.reason, a.session.access
        ),
        Err(refusal) => println!(rt;
            "case {n}: refusal {}, kind 0, reasons 0, access 0",
            refusal.number()
        ),
    }
}

// A line: case, refusal, yes or no.
fn say_test(rt: &impl Print, n: u32, answer: Result<bool, Refusal>) -> io::Result<()> {
    match answer {
        Ok(yes) => println!(rt; "case {n}: refusal 0, answer {}", u32::from(yes)),
        Err(refusal) => println!(rt; "case {n}: refusal {}, answer 0", refusal.number()),
    }
}

// A line: case, refusal, yes or no, the third state's flag.
fn say_merge(rt: &impl Print, n: u32, answer: Result<Option<bool>, Refusal>) -> io::Result<()> {
    match answer {
        Ok(merged) => println!(rt;
            "case {n}: refusal 0, answer {}, flag {}",
            u32::from(merged.is_some()),
            u32::from(merged == Some(true))
        ),
        Err(refusal) => println!(rt; "case {n}: refusal {}, answer 0, flag 0", refusal.number()),
    }
}

// 2, 3, 4: the kind of a place with two values.
fn joined(rt: &impl Print, n: u32, first: ValueKind, second: ValueKind) -> io::Result<()> {
    let mut values = [0u64; 1024];
    let mut sets = [0u64; 8192];
    put(&mut values, &sets, 1, first, 2048);
    put(&mut values, &sets, 2, second, 2048);
    both(&values, &mut sets);
    say_kind(
        rt,
        n,
        state_read_kinds::kind(&values, &sets, session(512), 0),
    )
}

// 5: an undefined place is Mutable {Other}, and recorded.
fn undefined(rt: &impl Print) -> io::Result<()> {
    let values = [0u64; 1024];
    let sets = [0u64; 8192];
    say_kind(
        rt,
        5,
        state_read_kinds::kind(&values, &sets, session(512), 7),
    )
}

// 6: a place that is defined, with an empty set: the same, nothing recorded. Bit 0 of its row says that it is defined.
fn empty_set(rt: &impl Print) -> io::Result<()> {
    let values = [0u64; 1024];
    let mut sets = [0u64; 8192];
    lent_set_writes::put_set(&mut sets, 7, &[0u64; 16]);
    say_kind(
        rt,
        6,
        state_read_kinds::kind(&values, &sets, session(512), 7),
    )
}

// 7: a freeze of {Mutable, Primitive}: both Frozen.
fn freeze_both(rt: &impl Print) -> io::Result<()> {
    let mut values = [0u64; 1024];
    let mut sets = [0u64; 8192];
    put(&mut values, &sets, 1, ValueKind::Mutable, 2048);
    put(&mut values, &sets, 2, ValueKind::Primitive, 2048);
    both(&values, &mut sets);
    say_test(
        rt,
        7,
        state_write_values::freeze(&mut values, &sets, session(512), 0, 1),
    )?;
    let _ = state_write_sets::define(&values, &mut sets, session(512), 0, 1);
    say_kind(
        rt,
        7,
        state_read_kinds::kind(&values, &sets, session(512), 0),
    )?;
    say_kind(
        rt,
        7,
        state_read_kinds::kind(&values, &sets, session(512), 1),
    )
}

// 8: a freeze of Frozen {State}: no, and the reason is kept.
fn freeze_frozen(rt: &impl Print) -> io::Result<()> {
    let mut values = [0u64; 1024];
    let mut sets = [0u64; 8192];
    put(&mut values, &sets, 1, ValueKind::Frozen, 2);
    let _ = state_write_sets::define(&values, &mut sets, session(512), 0, 1);
    say_test(
        rt,
        8,
        state_write_values::freeze(&mut values, &sets, session(512), 0, 5),
    )?;
    say_kind(
        rt,
        8,
        state_read_kinds::kind(&values, &sets, session(512), 0),
    )
}

// 9: a phi of undefined operands leaves its place.
fn phi_of_none(rt: &impl Print) -> io::Result<()> {
    let mut values = [0u64; 1024];
    let mut sets = [0u64; 8192];
    put(&mut values, &sets, 1, ValueKind::Context, 2048);
    let _ = state_write_sets::define(&values, &mut sets, session(512), 0, 1);
    let _ = state_phi::infer_phi(&values, &mut sets, session(512), 0, &[3u32, 4]);
    say_kind(
        rt,
        9,
        state_read_kinds::kind(&values, &sets, session(512), 0),
    )
}

// 14: a state merged with itself: None, so no flag either.
fn merged_with_itself(rt: &impl Print) -> io::Result<()> {
    let mut values = [0u64; 1024];
    let mut sets = [0u64; 8192];
    let mut values3 = [0u64; 1024];
    let mut sets3 = [0u64; 8192];
    put(&mut values, &sets, 1, ValueKind::Frozen, 2);
    put(&mut values, &sets, 2, ValueKind::Mutable, 2048);
    both(&values, &mut sets);
    say_merge(
        rt,
        14,
        state_merge_calls::merge(
            &values,
            &sets,
            true,
            &values,
            &sets,
            true,
            session(512),
            &mut values3,
            &mut sets3,
        ),
    )
}

fn main(rt: HostRuntime) -> io::Result<()> {
    joined(&rt, 2, ValueKind::Mutable, ValueKind::Frozen)?;
    joined(&rt, 3, ValueKind::Context, ValueKind::Mutable)?;
    joined(&rt, 4, ValueKind::Global, ValueKind::Primitive)?;
    undefined(&rt)?;
    empty_set(&rt)?;
    freeze_both(&rt)?;
    freeze_frozen(&rt)?;
    phi_of_none(&rt)?;
    merged_with_itself(&rt)
}
