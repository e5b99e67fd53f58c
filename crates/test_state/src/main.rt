// Replays recorded state operations through the public calls, and compares answer, session and state with what the Rust gave.
// The list is docs/VECTORS.md's, part 3 and 4; its name is the first argument. Prints each record that failed, then how many were replayed.
#![tactic(auto)]

use def_effects::{MutateVariant, Session, Span};
use def_kinds::{AbstractValue, ValueKind};
use def_refusals::Refusal;
use lent_slices::{get_or, set};
use lent_values::{put_value, value_at};
use state_calls::KindAnswer;
use std::io::Read;
use std::{fs, io};
use test_bytes::{Reading, argument, read_full};

// A state in lent tables, with its flag as the list has it.
#[derive(Drop)]
struct State {
    values: [u64; 1024],
    sets: [u64; 8192],
    flag: u32,
}

// ---- words of the list

// The next word; past the end of the list it is zero, and that is no difference.
fn next(record: &mut Reading) -> u32 {
    let faults = record.faults;
    let word = record.word();
    record.faults = faults;
    word
}

// Counts a difference where the next word is not x.
fn expect(record: &mut Reading, x: u32) {
    let y = next(record);
    record.check(x == y);
}

// ---- loading

// An entry of a state: value number, kind, reasons.
fn load_value(record: &mut Reading, values: &mut [u64]) {
    let v = next(record);
    let kind = ValueKind::of_code(next(record) % 256);
    let reason = next(record);
    put_value(values, v as usize, AbstractValue { kind, reason });
}

// A pair of a state: identifier and one of its values, or 0 for an empty set.
// The bit of value 0 says that the identifier is defined, and so it is in either case.
fn load_pair(record: &mut Reading, sets: &mut [u64]) {
    let i = next(record);
    let v = next(record);
    let mut row = [0u64; 16];
    lent_set_writes::add_set(&mut row, sets, i);
    lent_sets::add_value(&mut row, v);
    lent_set_writes::put_set(sets, i, &row);
}

// So many entries and pairs into a state. It is 72 KB, and so lent and not answered.
fn load_state(record: &mut Reading, state: &mut State, entries: u32, pairs: u32) {
    for _ in 0..entries {
        load_value(record, &mut state.values);
    }
    for _ in 0..pairs {
        load_pair(record, &mut state.sets);
    }
}

// Some words into a list, from its first place on; what passes its end is read and left.
fn load_words(record: &mut Reading, list: &mut [u32], n: u32) {
    for k in 0..n {
        set(list, k as usize, next(record));
    }
}

// ---- what an operation must answer

// Compares the answer's next words with the entries of a state, ascending.
fn check_values(record: &mut Reading, values: &[u64]) {
    let n = next(record);
    let mut found = 0;
    for v in 0..1024 {
        if let Some(a) = value_at(values, v as usize) {
            expect(record, v);
            expect(record, a.kind as u32);
            expect(record, a.reason);
            found += 1;
        }
    }
    record.check(found == n);
}

// Compares the answer's next words with the set of identifier i, ascending.
fn check_set(record: &mut Reading, sets: &[u64], i: u32) {
    expect(record, i);
    expect(record, lent_members::size(sets, i));
    for v in 1..1024 {
        if lent_members::next_member(sets, i, v) == Some(v) {
            expect(record, v);
        }
    }
}

// Compares the answer's next words with the sets of a state, ascending.
fn check_sets(record: &mut Reading, sets: &[u64]) {
    let n = next(record);
    let mut found = 0;
    for i in 0..512 {
        if lent_sets::is_defined(sets, i) {
            check_set(record, sets, i);
            found += 1;
        }
    }
    record.check(found == n);
}

// Compares what follows in the answer with a session's first access and a state.
fn check_rest(record: &mut Reading, now: Session, state: &State) {
    record.check(state_read_sets::accepted(&state.values, &state.sets, now).is_ok());
    expect(record, now.access);
    expect(record, now.span.start);
    expect(record, now.span.end);
    expect(record, state.flag);
    check_values(record, &state.values);
    check_sets(record, &state.sets);
}

// Compares the answer with some words, that were computed by a call that was not refused: no recorded operation is refused.
fn expect_words(record: &mut Reading, is_answered: bool, words: &[u32]) {
    record.check(is_answered);
    let n = next(record);
    record.check(n as usize == words.len());
    for x in words {
        expect(record, *x);
    }
}

// The same of a kind with its reasons.
fn expect_kind(record: &mut Reading, answer: Result<KindAnswer, Refusal>) {
    let words = match answer {
        Ok(a) => [a.value.kind as u32, a.value.reason],
        Err(_) => [0, 0],
    };
    expect_words(record, answer.is_ok(), &words);
}

// The same of a yes or no.
fn expect_test(record: &mut Reading, answer: Result<bool, Refusal>) {
    expect_words(
        record,
        answer.is_ok(),
        &[u32::from(answer.unwrap_or(false))],
    );
}

// ---- operations

// The variant of a number: 0 Mutate, 1 MutateConditionally, 2 MutateTransitive, else MutateTransitiveConditionally.
fn variant_of(n: u32) -> MutateVariant {
    match n {
        0 => MutateVariant::Mutate,
        1 => MutateVariant::MutateConditionally,
        2 => MutateVariant::MutateTransitive,
        _ => MutateVariant::MutateTransitiveConditionally,
    }
}

// The write test of a place, compared with the kind that was compared with the recorded one.
fn check_write(record: &mut Reading, state: &State, now: Session, i: u32, kind: ValueKind) {
    let w = state_read_kinds::may_write(&state.values, &state.sets, now, i);
    record.check(w.is_ok());
    record.check(w.unwrap_or(false) == kind.is_writable());
}

// An operation on one state, compared with the first words of its answer; the session after it.
// `operands` are those of a phi, whose place is the first argument.
fn run(
    record: &mut Reading,
    operation: u32,
    state: &mut State,
    now: Session,
    refs: &[u32],
    arguments: [u32; 4],
    operands: &[u32],
) -> Session {
    let [first, second, third, fourth] = arguments;
    let values = &mut state.values;
    let sets = &mut state.sets;
    match operation {
        1 => {
            let answer = state_read_kinds::kind(values, sets, now, first);
            expect_kind(record, answer);
            if let Ok(a) = answer {
                check_write(record, state, now, first, a.value.kind);
                return a.session;
            }
        }
        2 => {
            let span = Span {
                start: second,
                end: third,
            };
            let answer = state_read_kinds::kind_with_span(values, sets, now, first, span);
            expect_kind(record, answer);
            if let Ok(a) = answer {
                return a.session;
            }
        }
        3 => {
            let kind = ValueKind::of_code(second % 256);
            let a = AbstractValue {
                kind,
                reason: third,
            };
            let done = state_write_values::initialize(values, sets, now, first, a);
            expect_words(record, done.is_ok(), &[]);
        }
        4 => {
            let done = state_write_sets::define(values, sets, now, first, second);
            expect_words(record, done.is_ok(), &[]);
        }
        5 => {
            let done = state_write_sets::assign(values, sets, now, first, second);
            expect_words(record, done.is_ok(), &[]);
        }
        6 => {
            let done = state_write_sets::append_alias(values, sets, now, first, second);
            expect_words(record, done.is_ok(), &[]);
        }
        7 => {
            expect_test(
                record,
                state_read_sets::is_defined(values, sets, now, first),
            );
        }
        8 => {
            let mut list = [0u32; 1024];
            let a = state_read_sets::values_for(values, sets, now, first, &mut list);
            let n = (a.unwrap_or(0) as usize).min(list.len());
            expect_words(record, a.is_ok(), &list[..n]);
        }
        9 => {
            expect_test(
                record,
                state_write_values::freeze(values, sets, now, first, second),
            );
        }
        10 => {
            let span = Span {
                start: third,
                end: fourth,
            };
            let is_ref = get_or(refs, second as usize, 0) == 1;
            let variant = variant_of(first);
            let answer = state_read_kinds::mutate(values, sets, now, is_ref, variant, second, span);
            let word = match answer {
                Ok(a) => a.result as u32,
                Err(_) => 0,
            };
            expect_words(record, answer.is_ok(), &[word]);
            if let Ok(a) = answer {
                return a.session;
            }
        }
        11 => {
            let done = state_phi::infer_phi(values, sets, now, first, operands);
            expect_words(record, done.is_ok(), &[]);
        }
        _ => record.check(false),
    }
    now
}

// 12: merge into a third state, by the flags of both; its flag is compared too.
// The first state is above or equal to the second just where the second adds nothing.
fn run_merge(record: &mut Reading, one: &State, other: &State, now: Session) {
    let mut merged = State {
        values: [0; 1024],
        sets: [0; 8192],
        flag: 0,
    };
    let a = state_merge_calls::merge(
        &one.values,
        &one.sets,
        one.flag == 1,
        &other.values,
        &other.sets,
        other.flag == 1,
        now,
        &mut merged.values,
        &mut merged.sets,
    );
    let flag = a.unwrap_or(None);
    merged.flag = u32::from(flag.unwrap_or(false));
    expect_words(record, a.is_ok(), &[u32::from(flag.is_some())]);
    let above = state_merge_calls::is_above(
        &one.values,
        &one.sets,
        &other.values,
        &other.sets,
        now,
    );
    record.check(above.is_ok());
    record.check(above.unwrap_or(false) != flag.is_some());
    check_rest(record, now, &merged);
}

// 13: merge_from, by the flags of both; the flag after it is compared too.
fn run_merge_from(record: &mut Reading, one: &mut State, other: &State, now: Session) {
    let flag = one.flag == 1;
    let a = state_merge_calls::merge_from(
        &mut one.values,
        &mut one.sets,
        flag,
        &other.values,
        &other.sets,
        other.flag == 1,
        now,
    );
    expect_words(record, a.is_ok(), &[]);
    let (after, flag) = match a {
        Ok(a) => (a.session, a.flag),
        Err(_) => (now, flag),
    };
    one.flag = u32::from(flag);
    check_rest(record, after, one);
}

// ---- a list

// One record: its head of 14 words (the count of input words before VECTORS.md's 13), ref flags, two states, the arguments,
// and the answer, after the count of its words, with which the call's is compared. All fresh numbers of its session are handed out.
fn replay_on(record: &mut Reading, one: &mut State, other: &mut State) {
    let mut head = [0u32; 14];
    load_words(record, &mut head, 14);
    let span = Span {
        start: head[4],
        end: head[5],
    };
    let now = Session {
        next: 512,
        access: head[3],
        span,
        entries: 0,
    };
    let mut refs = [0u32; 512];
    load_words(record, &mut refs, head[8]);
    one.flag = head[6];
    load_state(record, one, head[9], head[10]);
    other.flag = head[7];
    load_state(record, other, head[11], head[12]);
    let mut list = [0u32; 1025];
    load_words(record, &mut list[..1024], head[13]);
    let arguments = [list[0], list[1], list[2], list[3]];
    let operands = &list[1..(head[13] as usize).clamp(1, 1025)];
    next(record);
    match head[2] {
        12 => run_merge(record, one, other, now),
        13 => run_merge_from(record, one, other, now),
        operation @ 1..=11 => {
            let after = run(record, operation, one, now, &refs, arguments, operands);
            check_rest(record, after, one);
        }
        _ => record.check(false),
    }
}

// One record on states that are empty at first.
// A function's memory is cleared as it begins and again where it is made; where nothing runs in between, that is one time.
fn replay_record(record: &mut Reading) {
    let mut one = State {
        values: [0; 1024],
        sets: [0; 8192],
        flag: 0,
    };
    let mut other = State {
        values: [0; 1024],
        sets: [0; 8192],
        flag: 0,
    };
    replay_on(record, &mut one, &mut other);
}

// Replays a list, names the records that failed, and says how it went.
fn replay_list(rt: &impl Print, bytes: &[u8]) -> io::Result<()> {
    let mut record = Reading::new(bytes);
    let n = next(&mut record);
    let mut failed: u32 = 0;
    for k in 0..n {
        record.faults = 0;
        replay_record(&mut record);
        if record.faults != 0 {
            println!(rt; "failed: operation {k}")?;
            failed = failed.saturating_add(1).min(1000000);
        }
    }
    println!(rt; "{n} operations replayed, {failed} failed")
}

// Reads the list into 262,144 bytes and replays it.
// A list that is cut goes on with zeros.
fn replay_file(rt: &impl Print, file: &mut impl Read) -> io::Result<()> {
    let mut bytes = [0u8; 262144];
    read_full(file, &mut bytes)?;
    replay_list(rt, &bytes)
}

fn main(rt: HostRuntime) -> io::Result<()> {
    let mut buffer = [0u8; 4096];
    let path = argument(&rt, 1, &mut buffer);
    match fs::open(&rt, path) {
        Ok(mut file) => replay_file(&rt, &mut file),
        Err(e) => eprintln!(rt; "{path}: {e}"),
    }
}
