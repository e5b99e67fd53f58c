// A benchmark of the call for one instruction. Arguments: what is lent (1 nearly empty tables, 2 full tables, 3 a walk that goes 4,096 entries deep
// and is refused, 4 middling tables), and the power of ten of repetitions, or 9 for none. It prints refusal and count of the last call;
// `tools/bench_call.py` times it, and finds out how much stack it needs.
#![tactic(auto)]

ghost use Rattle.std.specs.Prelude.{◌<◌};

use call_apply::apply_signature;
use def_effects::{Diagnostic, NO_SPAN, Place, Span};
use def_kinds::{AbstractValue, DEFAULT, ValueKind};
use lent_layout::{Context, Numbered, UNUSED};
use lent_slices::set;
use std::io;
use test_bytes::{digit, fill_state, session};

// Repetitions: a power of ten, up to a million; 9 is none.
fn power(e: u32) -> u32 {
    match e {
        0..=6 => 10u32.saturating_pow(e),
        9 => 0,
        _ => 1,
    }
}

// Case 1: Create into 0 as Frozen, State; Assign 0 to 1. Two identifiers.
// "two plain identifiers, next 1".
fn lend_case_1(candidates: &mut [u32]) {
    set(candidates, 0, 9);
    set(candidates, 11, 1);
    set(candidates, 12, 1);
    set(candidates, 98, 8);
    set(candidates, 98 + 6, 1);
}

// The function of case 18: value 1 stands for function 0, whose one context place is x.
// Two identifiers; the first option is on.
fn lend_function(context: &mut Context) {
    context.options = 1;
    context.function_count = 1;
    set(context.functions, 0, 1);
    set(context.functions, 1, 1);
    set(context.contexts, 0, 1);
    set(context.links, 2, 1);
}

// Case 18, f below g: p = {f}, f with context x = {f, g}, either option on; Freeze p never ends in the Rust.
// p is identifier 0, x identifier 1, f value 1, g value 2.
fn lend_walk(values: &mut [u64], sets: &mut [u64]) {
    lent_values::put_value(values, 1, DEFAULT);
    lent_values::put_value(values, 2, DEFAULT);
    lent_set_writes::define(sets, 0, 1);
    lent_set_writes::define(sets, 1, 1);
    let mut row = [0u64; 16];
    lent_set_writes::add_set(&mut row, sets, 1);
    lent_sets::add_value(&mut row, 2);
    lent_set_writes::put_set(sets, 1, &row);
}

// Interned effect k of a full context: ImmutableCapture from identifier k % 512 into identifier k / 512.
// 2,048 keys.
fn intern_one(effects: &mut [u32], k: u32) {
    let at = k as usize * 98;
    set(effects, at, 11);
    set(effects, at + 1, k % 512);
    set(effects, at + 6, k / 512);
}

// Place j of the order of these effects: by their source first, so that those of one source stand side by side.
// ImmutableCapture from identifier j / 4 into identifier j % 4.
fn order_one(order: &mut [u32], j: u32) {
    set(order, j as usize, j % 4 * 512 + j / 4);
}

// All 2,048 of them, and their order.
fn intern_all(effects: &mut [u32], order: &mut [u32]) {
    for k in 0..2048 {
        intern_one(effects, k);
        order_one(order, k);
    }
}

// Diagnostic k of a full context: case 0, sentence 0, own span k to k + 1 of identifier k.
// 256 identities.
fn report_one(diagnostics: &mut [Numbered], k: u32) {
    let diagnostic = Diagnostic {
        identifier: k,
        case: 0,
        sentence: 0,
        name: 0,
        access: NO_SPAN,
        own: Span { start: 0, end: 0 },
    };
    let x = Numbered {
        identity: k,
        diagnostic,
    };
    set(diagnostics, k as usize, x);
}

// All 256 of them.
fn report_all(diagnostics: &mut [Numbered]) {
    for k in 0..256 {
        report_one(diagnostics, k);
    }
}

// The value of identifier i of middling tables: Frozen {State} of 4, 5 and 6, else Mutable {Other}.
// All values of its set have the same.
fn middle_value(i: u32) -> AbstractValue {
    match i {
        4..=6 => AbstractValue {
            kind: ValueKind::Frozen,
            reason: 2,
        },
        _ => DEFAULT,
    }
}

// The three values of identifier i of middling tables, v, v + 20 and v + 40, get their entries.
fn middle_entries(values: &mut [u64], i: u32) {
    let v = (i % 20 + 1) as usize;
    let a = middle_value(i);
    lent_values::put_value(values, v, a);
    lent_values::put_value(values, v + 20, a);
    lent_values::put_value(values, v + 40, a);
}

// All 60 of them.
fn middle_values(values: &mut [u64]) {
    for i in 0..20 {
        middle_entries(values, i);
    }
}

// They are the set of their identifier.
fn middle_set(sets: &mut [u64], i: u32) {
    let v = i % 20 + 1;
    let mut row = [0u64; 16];
    lent_sets::add_value(&mut row, v);
    lent_sets::add_value(&mut row, v + 20);
    lent_sets::add_value(&mut row, v + 40);
    lent_set_writes::put_set(sets, i, &row);
}

// The sets of 20 identifiers.
fn middle_sets(sets: &mut [u64]) {
    for i in 0..20 {
        middle_set(sets, i);
    }
}

// The code of interned effect j by its key, of middling tables.
// 34 each of Freeze, Capture, MaybeAlias and ImmutableCapture.
fn middle_code(j: u32) -> u32 {
    match j / 34 {
        0 => 0,
        1 => 5,
        2 => 7,
        _ => 11,
    }
}

// The record of that effect, of number k: from identifiers 0 to 16, two each; a Freeze with reason 0 or 1, the others into 18 or 19.
fn middle_record(effects: &mut [u32], k: u32, j: u32, code: u32) {
    let at = k as usize * 98;
    set(effects, at, code);
    set(effects, at + 1, j % 34 / 2);
    if code == 0 {
        set(effects, at + 12, j % 2);
        return;
    }
    set(effects, at + 6, 18 + j % 2);
}

// Interned effect j by its key has the number j * 37 % 136, so that numbers and order differ.
fn middle_effect(effects: &mut [u32], order: &mut [u32], j: u32) {
    let k = j % 136 * 37 % 136;
    set(order, j as usize, k);
    middle_record(effects, k, j, middle_code(j));
}

// All 136 of them, and their order.
fn middle_effects(effects: &mut [u32], order: &mut [u32]) {
    for j in 0..136 {
        middle_effect(effects, order, j);
    }
}

// Context place p, of sixteen for each function: an identifier with the effect Capture.
fn middle_place(contexts: &mut [u32], p: u32, i: u32) {
    let at = p as usize * 5;
    set(contexts, at, i);
    set(contexts, at + 1, 3);
}

// Function f of middling tables: its effects are known, its context places are f, f + 1 and f + 2; it is the function of value f + 1.
fn middle_function(context: &mut Context, f: u32) {
    let i = f % 8;
    let at = i as usize * 163;
    let link = 2 + i as usize * 2;
    set(context.functions, at, 1);
    set(context.functions, at + 1, 3);
    middle_place(context.contexts, i * 16, i);
    middle_place(context.contexts, i * 16 + 1, i + 1);
    middle_place(context.contexts, i * 16 + 2, i + 2);
    set(context.links, link, 1);
    set(context.links, link + 1, i);
}

// All 8 of them.
fn middle_functions(context: &mut Context) {
    for f in 0..8 {
        middle_function(context, f);
    }
}

// The place of number v in the order of the cached keys of middling tables, counted from 1: by destination v % 20, then by reason v / 20.
// Destination 0 has the reasons 1 to 3, every other 0 to 2.
fn middle_turn(v: u32) -> u32 {
    let i = v % 20;
    if i == 0 {
        return v / 20;
    }
    i * 3 + v / 20 + 1
}

// The cached key of number v of middling tables, and its place in their order: Create into v % 20 as Mutable, with reason v / 20.
// 60 keys.
fn middle_key(keys: &mut [u32], order: &mut [u32], v: u32) {
    let at = v as usize * 28;
    set(keys, at, 1);
    set(keys, at + 1, 9);
    set(keys, at + 4, 1);
    set(keys, at + 5, v % 20);
    set(keys, at + 7, v / 20);
    set(order, middle_turn(v).saturating_sub(1) as usize, v);
}

// Those of the numbers 1 to 60.
fn middle_keys(keys: &mut [u32], order: &mut [u32]) {
    for v in 1..61 {
        middle_key(keys, order, v);
    }
}

// A middling context: 8 functions, 60 cached numbers, 136 interned effects.
fn lend_middle(context: &mut Context) {
    context.function_count = 8;
    context.effect_count = 136;
    context.key_count = 60;
    middle_functions(context);
    middle_keys(context.keys, context.key_order);
    middle_effects(context.effects, context.effect_order);
}

// A candidate of middling tables: its record, code, source and destination.
fn middle_flow(candidates: &mut [u32], k: u32, code: u32, from: u32, into: u32) {
    let at = k as usize * 98;
    set(candidates, at, code);
    set(candidates, at + 1, from);
    set(candidates, at + 6, into);
}

// Four candidates that are interned already: Capture 3 into 18, ImmutableCapture 7 into 19, MaybeAlias 5 into 18, Freeze 6 with State.
// The MaybeAlias derives an ImmutableCapture, since 5 is Frozen, and that is interned too; the Freeze changes nothing.
fn middle_candidates(candidates: &mut [u32]) {
    middle_flow(candidates, 0, 5, 3, 18);
    middle_flow(candidates, 1, 11, 7, 19);
    middle_flow(candidates, 2, 7, 5, 18);
    set(candidates, 295, 6);
    set(candidates, 306, 1);
}

// A full context, and an ImmutableCapture that is interned already: the call can be made again and again.
// 512 identifiers, 2,048 interned effects, 256 diagnostics.
fn lend_full(context: &mut Context, candidates: &mut [u32]) {
    context.effect_count = 2048;
    context.diagnostic_count = 256;
    intern_all(context.effects, context.effect_order);
    report_all(context.diagnostics);
    set(candidates, 0, 11);
    set(candidates, 1, 5);
    set(candidates, 6, 1);
}

// What a case lends, over tables that are zero.
// Any other number is the deep walk.
fn lend(
    kind: u32,
    values: &mut [u64],
    sets: &mut [u64],
    context: &mut Context,
    candidates: &mut [u32],
) {
    match kind {
        1 => lend_case_1(candidates),
        2 => {
            fill_state(values, sets);
            lend_full(context, candidates);
        }
        4 => {
            middle_values(values);
            middle_sets(sets);
            lend_middle(context);
            middle_candidates(candidates);
        }
        _ => {
            lend_function(context);
            lend_walk(values, sets);
        }
    }
}

// The call n times over one state, context and session, on tables of the lengths of a case; refusal and count of the last, as 1,000,000 times the refusal, and the count.
// Words of sets, identifiers, functions and context places, room for effects, words of candidates and of both scratches.
// The lvalue is identifier 1, and there is no own function. The first call may intern and number, the others find it; with 0 repetitions the tables are lent, and nothing is called.
fn measure<
    const SETS: usize,
    const IDENTIFIERS: usize,
    const FUNCTIONS: usize,
    const CONTEXTS: usize,
    const EFFECTS: usize,
    const ORDER: usize,
    const CANDIDATES: usize,
    const SCRATCH64: usize,
    const SCRATCH32: usize,
>(kind: u32, n: u32, next: u32) -> u64
    requires sets { SETS < 1000000 }
    requires identifiers { IDENTIFIERS < 1000000 }
    requires functions { FUNCTIONS < 1000000 }
    requires contexts { CONTEXTS < 1000000 }
    requires effects { EFFECTS < 1000000 }
    requires order { ORDER < 1000000 }
    requires candidates { CANDIDATES < 1000000 }
    requires scratch64 { SCRATCH64 < 1000000 }
    requires scratch32 { SCRATCH32 < 1000000 }
{
    let mut values = [0u64; 1024];
    let mut sets = [0u64; SETS];
    let mut identifiers = [0u32; IDENTIFIERS];
    let mut functions = [0u32; FUNCTIONS];
    let mut contexts = [0u32; CONTEXTS];
    let mut links = [0u32; 1024];
    let mut keys = [0u32; 14336];
    let mut key_order = [0u32; 512];
    let mut effects = [0u32; EFFECTS];
    let mut effect_order = [0u32; ORDER];
    let mut diagnostics = [UNUSED; 256];
    let mut candidates = [0u32; CANDIDATES];
    let mut output = [0u32; 109760];
    let mut scratch64 = [0u64; SCRATCH64];
    let mut scratch32 = [0u32; SCRATCH32];
    let mut context = Context {
        options: 0,
        function_count: 0,
        effect_count: 0,
        key_count: 0,
        diagnostic_count: 0,
        identifiers: &mut identifiers,
        functions: &mut functions,
        contexts: &mut contexts,
        links: &mut links,
        keys: &mut keys,
        key_order: &mut key_order,
        effects: &mut effects,
        effect_order: &mut effect_order,
        diagnostics: &mut diagnostics,
    };
    lend(kind, &mut values, &mut sets, &mut context, &mut candidates);
    let lvalue = Place {
        identifier: 1,
        effect: 0,
        reactive: 0,
        span: Span { start: 0, end: 0 },
    };
    let mut now = session(next);
    let mut last = 0;
    for _ in 0..n {
        let answer = apply_signature(
            &mut values,
            &mut sets,
            false,
            &mut context,
            now,
            &candidates,
            lvalue,
            0,
            &mut output,
            &mut scratch64,
            &mut scratch32,
        );
        last = match answer {
            Ok(a) => {
                now = a.session;
                u64::from(a.count)
            }
            Err(refusal) => u64::from(refusal.number()) * 1000000,
        };
    }
    last
}

// The tables of case 1 have room for 8 interned effects; the first call needs 3, and the others, which find three, 6.
// Middling ones have room for 144: 136, the 7 that the candidates need, and one more. The others' context has the largest lengths.
fn main(rt: HostRuntime) -> io::Result<()> {
    let kind = digit(&rt, 1);
    let n = power(digit(&rt, 2));
    let last = match kind {
        1 => measure::<32, 8, 0, 0, 784, 8, 196, 1056, 15880>(kind, n, 1),
        2 => measure::<8192, 2048, 10432, 5120, 200704, 2048, 98, 9216, 23040>(kind, n, 512),
        4 => measure::<320, 80, 1304, 640, 14112, 144, 392, 1344, 16656>(kind, n, 61),
        _ => measure::<32, 8, 10432, 5120, 200704, 2048, 98, 1056, 23040>(kind, n, 3),
    };
    println!(rt; "{last}")
}
