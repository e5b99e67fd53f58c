// Replays recorded library jobs through the call for an instruction, and compares what it answers and leaves with what the Rust gave.
// The lists are docs/VECTORS.md's, part 5; their names are the arguments. Prints each job that failed, then how many were replayed.
#![tactic(auto)]

ghost use Rattle.std.specs.Prelude.{◌≤◌, IfOk, length};

use call_outcome::Applied;
use def_effects::{Diagnostic, Place, Session, Span};
use def_refusals::Refusal;
use lent_layout::{
    CANDIDATE_WORDS, Context, EFFECT_WORDS, INTERNED, MOST_SAVED, Numbered, OUTPUT_WORDS, UNUSED,
};
use lent_slices::{get_or, set};
use lent_tables::Table;
use refuse_context::context_class;
use std::io::Read;
use std::rt::Runtime;
use std::{fs, io};
use test_bytes::{Reading, argument, read_full};

// What is lent to a call beside its candidates.
#[derive(Drop)]
struct Lent<'a> {
    values: &'a mut [u64],
    sets: &'a mut [u64],
    context: Context<'a>,
    output: &'a mut [u32],
    scratch64: &'a mut [u64],
    scratch32: &'a mut [u32],
}

// The words of a job, one after the other; those that there is no room for are zeros.
// How many of these there are, by the count of words that the job says, and how many are read.
#[derive(Drop)]
struct Job<'a> {
    reading: Reading<'a>,
    behind: u64,
    read: u64,
}

// How many are behind where a job says 2^32 - 1 words. A place is counted up to that, and stays there.
const UNBOUNDED: u64 = 4294868991;

impl<'a> Job<'a> {
    // The next word; past the end it is 0, and that is a difference.
    fn word(&mut self) -> u32 {
        if self.reading.rest.is_empty() {
            if self.read < self.behind {
                self.read += 1;
                return 0;
            }
            if self.behind == UNBOUNDED {
                return 0;
            }
        }
        self.reading.word()
    }

    // Passes over n words, after a difference.
    fn skip(&mut self, n: u64) {
        let rest = self.reading.rest;
        let k = (rest.len() / 4).min(n as usize);
        self.reading.rest = &rest[k * 4..];
        self.read = self.read.saturating_add(n - k as u64);
    }

    // Counts a difference where a test fails.
    fn check(&mut self, ok: bool) {
        self.reading.check(ok);
    }

    // Counts a difference where the next word is not x.
    fn expect(&mut self, x: u32) {
        let y = self.word();
        self.check(x == y);
    }

    // Whether all of its words were read, without a difference.
    fn passes(&self) -> bool {
        self.reading.faults == 0 && self.reading.rest.is_empty() && self.read == self.behind
    }
}

// A word of a table, as a job writes it.
trait Word: Copy + PartialEq {
    const ZERO: Self;
    // How many words of a job it takes.
    const WORDS: u64;

    fn read(job: &mut Job) -> Self;
}

impl Word for u32 {
    const ZERO: u32 = 0;

    const WORDS: u64 = 1;

    fn read(job: &mut Job) -> u32 {
        job.word()
    }
}

// Values, sets and their scratch; its lower half comes first.
impl Word for u64 {
    const ZERO: u64 = 0;

    const WORDS: u64 = 2;

    fn read(job: &mut Job) -> u64 {
        let low = job.word();
        u64::from(job.word()) << 32 | u64::from(low)
    }
}

// ---- tables: the count of their runs, and each run, which is its first index, its length and its words; all other words are zero

// Loads a table into a list that is zero.
// What passes the end of the list is left.
fn load<T: Word>(job: &mut Job, list: &mut [T]) {
    for _ in 0..job.word() {
        let first = job.word() as usize;
        for k in 0..job.word() as usize {
            let x = T::read(job);
            if let Some(place) = list.get_mut(first + k) {
                *place = x;
            }
        }
    }
}

// Whether the words of a list from one on and before another are zero.
// Past the end of a list all is zero.
fn is_zero<T: Word>(list: &[T], from: usize, to: usize) -> bool {
    let end = to.min(list.len());
    from >= end || list[from..end].iter().all(|x| *x == T::ZERO)
}

// Compares a list with the next run, and with zero from where all is compared up to the run; where all is compared after it.
// Runs stand in the order of their indices.
fn same_run<T: Word>(job: &mut Job, list: &[T], done: usize) -> usize {
    let first = job.word() as usize;
    let n = job.word() as usize;
    job.check(is_zero(list, done, first));
    for k in 0..n {
        let x = T::read(job);
        if list.get(first + k).copied().unwrap_or(T::ZERO) != x {
            job.check(false);
            job.skip(((n - k - 1) as u64).saturating_mul(T::WORDS));
            break;
        }
    }
    first + n
}

// Compares a list with a table.
// So nothing stands there but what is expected.
fn same<T: Word>(job: &mut Job, list: &[T]) {
    let mut done = 0;
    for _ in 0..job.word() {
        done = same_run(job, list, done);
    }
    job.check(is_zero(list, done, list.len()));
}

// ---- diagnostics, which a job writes as records of nine words

// The records of a slice that is longer than can be lent.
const RECORDS: Table = Table {
    base: 0,
    count: 258,
    width: 9,
};

// The span of record k that begins at a word.
fn span_of(words: &[u32], k: usize, w: u32) -> Span {
    let w = w as usize;
    Span {
        start: RECORDS.field(words, k, w),
        end: RECORDS.field(words, k, w + 1),
    }
}

// Record k.
fn numbered(words: &[u32], k: usize) -> Numbered {
    Numbered {
        identity: RECORDS.field(words, k, 0),
        diagnostic: Diagnostic {
            identifier: RECORDS.field(words, k, 1),
            case: RECORDS.field(words, k, 2),
            sentence: RECORDS.field(words, k, 3),
            name: RECORDS.field(words, k, 4),
            access: span_of(words, k, 5),
            own: span_of(words, k, 7),
        },
    }
}

// The words of a record.
fn numbers(x: Numbered) -> [u32; 9] {
    let d = x.diagnostic;
    [
        x.identity,
        d.identifier,
        d.case,
        d.sentence,
        d.name,
        d.access.start,
        d.access.end,
        d.own.start,
        d.own.end,
    ]
}

// Loads diagnostics.
// Each record of the slice, also one that is zero.
fn load_diagnostics(job: &mut Job, diagnostics: &mut [Numbered]) {
    let mut words = [0u32; 2322];
    load(job, &mut words);
    for k in 0..258 {
        set(diagnostics, k, numbered(&words, k));
    }
}

// Compares diagnostics with a table.
fn same_diagnostics(job: &mut Job, diagnostics: &[Numbered]) {
    let mut words = [0u32; 2322];
    for k in 0..258 {
        let record = numbers(get_or(diagnostics, k, UNUSED));
        for w in 0..9 {
            RECORDS.put_field(&mut words, k, w, record[w]);
        }
    }
    same(job, &words);
}

// ---- interned effects, which are recorded by their keys and not by their numbers

// Whether record k of the interned effects is a given one.
fn is_record(effects: &[u32], k: u32, record: &[u32; EFFECT_WORDS]) -> bool {
    record
        .iter()
        .enumerate()
        .all(|(w, x)| INTERNED.field(effects, k as usize, w) == *x)
}

// Whether a given record is the interned effect that comes j-th by its key, and its number one of the first n.
fn comes(context: &Context, n: u32, j: u32, record: &[u32; EFFECT_WORDS]) -> bool {
    let k = get_or(context.effect_order, j as usize, 0);
    k < n && is_record(context.effects, k, record)
}

// Compares as many records of a job as it says along the order, and nothing stands after as many places and effects.
// Recorded effects ascend by their keys and differ from each other, so these are all of them, and the order is the one of their keys.
fn same_records(job: &mut Job, context: &Context) {
    let n = job.word();
    for j in 0..n {
        let mut record = [0u32; EFFECT_WORDS];
        load(job, &mut record);
        job.check(comes(context, n, j, &record));
    }
    job.check(n <= 2048);
    let n = n as usize;
    job.check(is_zero(context.effects, n * EFFECT_WORDS, context.effects.len()));
    job.check(is_zero(context.effect_order, n, context.effect_order.len()));
}

// Compares the interned effects and their order: word by word after a 1, else by their keys; then another call has to accept the context.
// What a refused call leaves may be as wrong as it was lent.
fn same_effects(job: &mut Job, context: &Context, identifiers: u32, next: u32) {
    if job.word() == 1 {
        same(job, context.effects);
        same(job, context.effect_order);
        return;
    }
    same_records(job, context);
    job.check(context_class(context, identifiers, next).is_ok());
}

// ---- a context

// Loads the numbers beside the slices.
fn load_counts(job: &mut Job, context: &mut Context) {
    context.options = job.word();
    context.function_count = job.word();
    context.effect_count = job.word();
    context.key_count = job.word();
    context.diagnostic_count = job.word();
}

// Loads a context into slices that are zero.
fn load_context(job: &mut Job, context: &mut Context) {
    load_counts(job, context);
    load(job, context.identifiers);
    load(job, context.functions);
    load(job, context.contexts);
    load(job, context.links);
    load(job, context.keys);
    load(job, context.key_order);
    load(job, context.effects);
    load(job, context.effect_order);
    load_diagnostics(job, context.diagnostics);
}

// Compares the numbers beside the slices.
fn same_counts(job: &mut Job, context: &Context) {
    job.expect(context.options);
    job.expect(context.function_count);
    job.expect(context.effect_count);
    job.expect(context.key_count);
    job.expect(context.diagnostic_count);
}

// Compares a context with what a job expects, effects last.
fn same_context(job: &mut Job, context: &Context, identifiers: u32, next: u32) {
    same_counts(job, context);
    same(job, context.identifiers);
    same(job, context.functions);
    same(job, context.contexts);
    same(job, context.links);
    same(job, context.keys);
    same(job, context.key_order);
    same_diagnostics(job, context.diagnostics);
    same_effects(job, context, identifiers, next);
}

// ---- an instruction

// A span: start, end.
fn read_span(job: &mut Job) -> Span {
    Span {
        start: job.word(),
        end: job.word(),
    }
}

// A place: identifier, effect, reactive, span.
fn read_place(job: &mut Job) -> Place {
    Place {
        identifier: job.word(),
        effect: job.word(),
        reactive: job.word(),
        span: read_span(job),
    }
}

// A session: next number, first access and its span, walk entries.
fn read_session(job: &mut Job) -> Session {
    Session {
        next: job.word(),
        access: job.word(),
        span: read_span(job),
        entries: job.word(),
    }
}

// The first n of a list, and no more than it has.
// A job says how long each slice is.
fn first_of<T>(list: &mut [T], n: u32) -> &mut [T] {
    let n = (n as usize).min(list.len());
    &mut list[..n]
}

// Compares what a call answered: refusal, count and entries, every word of the output list, and scratch, which is zero after each call.
fn check_answer(job: &mut Job, answer: Result<Applied, Refusal>, lent: &Lent) {
    let (refusal, count, entries) = match answer {
        Ok(a) => (0, a.count, a.entries),
        Err(refusal) => (refusal.number(), 0, 0),
    };
    job.expect(refusal);
    job.expect(count);
    job.expect(entries);
    same(job, lent.output);
    job.check(is_zero(lent.scratch64, 0, lent.scratch64.len()));
    job.check(is_zero(lent.scratch32, 0, lent.scratch32.len()));
}

// One instruction of a job: lvalue, own function, length and runs of its candidates, and what it must answer.
// Output list and scratch may be lent with any numbers in them, so they get some that are not zero.
fn replay_instruction(
    job: &mut Job,
    lent: &mut Lent,
    flag: bool,
    now: Session,
) -> Result<Applied, Refusal> {
    let lvalue = read_place(job);
    let own = job.word();
    let n = job.word();
    let mut candidates = [0u32; CANDIDATE_WORDS + 2 * EFFECT_WORDS];
    load(job, &mut candidates);
    lent.output.fill(u32::MAX);
    lent.scratch64.fill(u64::MAX);
    lent.scratch32.fill(u32::MAX);
    let answer = call_apply::apply_signature(
        lent.values,
        lent.sets,
        flag,
        &mut lent.context,
        now,
        first_of(&mut candidates, n),
        lvalue,
        own,
        lent.output,
        lent.scratch64,
        lent.scratch32,
    );
    check_answer(job, answer, lent);
    answer
}

// ---- a job

// Compares the flag and the session with what a job expects.
fn check_session(job: &mut Job, flag: bool, now: Session) {
    job.expect(u32::from(flag));
    job.expect(now.next);
    job.expect(now.access);
    job.expect(now.span.start);
    job.expect(now.span.end);
    job.expect(now.entries);
}

// Compares state and context with what a job expects.
fn check_tables(job: &mut Job, lent: &Lent, next: u32) {
    same(job, lent.values);
    same(job, lent.sets);
    let identifiers = (lent.sets.len() / 16).min(513) as u32;
    same_context(job, &lent.context, identifiers, next);
}

// What a job says after its lengths, with what it lends: flag, session, the count of its instructions, the tables, the instructions, one after the other
// over one state, context and session, and what stands at the end. A refused instruction leaves all three as they were. Answers how many there are.
fn replay_lent(job: &mut Job, lent: &mut Lent) -> u32 {
    let mut flag = job.word() == 1;
    let mut now = read_session(job);
    let n = job.word();
    load(job, lent.values);
    load(job, lent.sets);
    load_context(job, &mut lent.context);
    for _ in 0..n {
        if let Ok(a) = replay_instruction(job, lent, flag, now) {
            now = a.session;
            flag = a.flag;
        }
    }
    check_session(job, flag, now);
    check_tables(job, lent, now.next);
    n
}

// A job: the length of each slice that is lent, then all else. Answers how many instructions it has.
// The lists are zero at first, with room for a record more than can be lent, which a damaged job lends, or for a few words.
fn replay_job(job: &mut Job) -> u32 {
    let mut values = [0u64; 1040];
    let mut sets = [0u64; 8224];
    let mut identifiers = [0u32; 2056];
    let mut functions = [0u32; 10600];
    let mut contexts = [0u32; 5200];
    let mut links = [0u32; 1032];
    let mut keys = [0u32; 14368];
    let mut key_order = [0u32; 520];
    let mut effects = [0u32; 2049 * EFFECT_WORDS];
    let mut effect_order = [0u32; 2056];
    let mut diagnostics = [UNUSED; 258];
    let mut output = [0u32; OUTPUT_WORDS + EFFECT_WORDS];
    let mut scratch64 = [0u64; 9280];
    let mut scratch32 = [0u32; MOST_SAVED + 88];
    let mut lent = Lent {
        values: first_of(&mut values, job.word()),
        sets: first_of(&mut sets, job.word()),
        context: Context {
            options: 0,
            function_count: 0,
            effect_count: 0,
            key_count: 0,
            diagnostic_count: 0,
            identifiers: first_of(&mut identifiers, job.word()),
            functions: first_of(&mut functions, job.word()),
            contexts: first_of(&mut contexts, job.word()),
            links: first_of(&mut links, job.word()),
            keys: first_of(&mut keys, job.word()),
            key_order: first_of(&mut key_order, job.word()),
            effects: first_of(&mut effects, job.word()),
            effect_order: first_of(&mut effect_order, job.word()),
            diagnostics: first_of(&mut diagnostics, job.word()),
        },
        output: first_of(&mut output, job.word()),
        scratch64: first_of(&mut scratch64, job.word()),
        scratch32: first_of(&mut scratch32, job.word()),
    };
    replay_lent(job, &mut lent)
}

// ---- a list of jobs

// The next word of a file.
fn read_word(file: &mut impl Read) -> io::Result<u32> {
    let mut bytes = [0u8; 4];
    read_full(file, &mut bytes)?;
    Ok(u32::from_le_bytes(bytes))
}

// Reads the next job, its length in words before it, and answers how many bytes of it there is room for, and how many words there are behind.
// The largest recorded job fits 393,216 bytes; what there is no room for is not read.
fn read_job(file: &mut impl Read, bytes: &mut [u8]) -> io::Result<(usize, u64)>
    ensures { IfOk result (λ r. r.0 ≤ length bytes.new) }
{
    let size = read_word(file)? as usize * 4;
    let end = size.min(bytes.len());
    read_full(file, &mut bytes[..end])?;
    Ok((end, ((size - end) / 4) as u64))
}

// Replays a list, names the jobs that failed, and says how it went. A job passes that was read to its end without a difference.
fn replay_list(rt: &impl Print, file: &mut impl Read) -> io::Result<()> {
    let n = read_word(file)?;
    let mut instructions: u32 = 0;
    let mut failed: u32 = 0;
    for k in 0..n {
        let mut bytes = [0u8; 393216];
        let (end, behind) = read_job(file, &mut bytes)?;
        let mut job = Job {
            reading: Reading::new(&bytes[..end]),
            behind,
            read: 0,
        };
        instructions = instructions.saturating_add(replay_job(&mut job));
        if !job.passes() {
            println!(rt; "failed: job {k}")?;
            failed = failed.saturating_add(1);
        }
    }
    println!(rt; "{n} jobs, {instructions} instructions replayed, {failed} failed")
}

// The list that an argument names.
// One that cannot be opened is told.
fn replay_file(rt: &impl Runtime, i: usize) -> io::Result<()> {
    let mut buffer = [0u8; 4096];
    let path = argument(rt, i, &mut buffer);
    match fs::open(rt, path) {
        Ok(mut file) => replay_list(rt, &mut file),
        Err(e) => eprintln!(rt; "{path}: {e}"),
    }
}

// The recorded jobs, then the damaged ones.
fn main(rt: HostRuntime) -> io::Result<()> {
    replay_file(&rt, 1)?;
    replay_file(&rt, 2)
}
