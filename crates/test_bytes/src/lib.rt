// What the programs share: words of a file as they are read and compared, whole buffers, arguments, and what the benchmarks and the replays lend.
#![tactic(auto)]

ghost use Rattle.std.specs.Prelude.{◌≡◌, ◌≤◌, ◌<◌, true, false, IfOk, length, drop, eqb};
ghost use Rattle.test_bytes.specs.Reads.{Written, counted, front, has, word};
ghost use Rattle.test_bytes.specs.Full.{ValuesFilled, SetsFilled};

use def_effects::{Session, Span};
use def_kinds::DEFAULT;
use std::io;
use std::io::Read;
use std::rt::Env;

// ---- words

// Words that are read from the first to the last, and how many differences were found between them and what they were compared with.
// Each program takes a recorded call apart by one of these.
#[derive(Drop)]
pub struct Reading<'a> {
    pub rest: &'a [u8],
    pub faults: u32,
}

impl<'a> Reading<'a> {
    // Some bytes, of which nothing is read.
    pub fn new(bytes: &'a [u8]) -> Self
        ensures rest { result.rest.now ≡ bytes.now }
        ensures faults { result.faults ≡ 0 }
    {
        Reading {
            rest: bytes,
            faults: 0,
        }
    }

    // The next bytes; past the end they are 0, and that is a difference.
    // So a record that is read wrong does not pass.
    pub fn bytes<const N: usize>(&mut self) -> [u8; N]
        ensures value { result ≡ front N self.old.rest.now }
        ensures rest { self.new.rest.now ≡ drop N self.old.rest.now }
        ensures faults { self.new.faults ≡ counted (has N self.old.rest.now) self.old.faults }
    {
        match self.rest.split_first_chunk::<N>() {
            Some((first, rest)) => {
                self.rest = rest;
                *first
            }
            None => {
                self.rest = &[];
                self.check(false);
                [0; N]
            }
        }
    }

    // The next word, its lowest byte first.
    pub fn word(&mut self) -> u32
        ensures value { result ≡ word self.old.rest.now }
        ensures rest { self.new.rest.now ≡ drop 4 self.old.rest.now }
        ensures faults { self.new.faults ≡ counted (has 4 self.old.rest.now) self.old.faults }
    {
        u32::from_le_bytes(self.bytes())
    }

    // Counts a difference where a test fails.
    pub fn check(&mut self, ok: bool)
        ensures right { ok ≡ true → self.new.faults ≡ self.old.faults }
        ensures wrong { ok ≡ false → 0 < self.new.faults }
        ensures faults { self.new.faults ≡ counted ok self.old.faults }
        ensures rest { self.new.rest.now ≡ self.old.rest.now }
    {
        if !ok {
            self.faults = self.faults.saturating_add(1);
        }
    }

    // Counts a difference where the next word is not x.
    pub fn expect(&mut self, x: u32)
        ensures rest { self.new.rest.now ≡ drop 4 self.old.rest.now }
        ensures faults { self.new.faults
            ≡ counted (eqb x (word self.old.rest.now)) (counted (has 4 self.old.rest.now) self.old.faults) }
    {
        let y = self.word();
        self.check(x == y);
    }
}

// ---- files and arguments

// Reads until the buffer is full or the input ends, and answers how many bytes there were.
// `read_exact` does not say how many there were before the end.
pub fn read_full(input: &mut impl Read, buffer: &mut [u8]) -> io::Result<usize>
    ensures { IfOk result (λ n. n ≤ length buffer.new) }
{
    let mut done = 0;
    while done < buffer.len() {
        let n = input.read(&mut buffer[done..])?;
        if n == 0 {
            break;
        }
        done += n;
    }
    Ok(done)
}

// Argument i, or an empty text where it is missing, longer than the buffer, or no text.
// What an argument is, no contract of the system says.
pub fn argument<'a>(rt: &impl Env, i: usize, buffer: &'a mut [u8]) -> &'a str
    ensures { length result.now ≤ length buffer.old }
{
    match rt.arg(i, buffer) {
        Ok(n) => str::from_utf8(&buffer[..n]).unwrap_or(""),
        Err(_) => "",
    }
}

// The digit that argument i begins with, or 0 where it begins with none. A longer argument counts by its first byte.
pub fn digit(rt: &impl Env, i: usize) -> u32
    ensures { result < 10 }
{
    let mut text = [0u8; 2];
    // A missing argument leaves the zeros, and one that is too long its first bytes.
    let _ = rt.arg(i, &mut text);
    match text[0] {
        c @ b'0'..=b'9' => u32::from(c - b'0'),
        _ => 0,
    }
}

// The number that a text writes, or 0 where it writes none that a word holds.
pub fn number(text: &str) -> u32
    ensures { Written text.now result }
{
    text.parse().unwrap_or(0)
}

// ---- what is lent

// A session with a next number, no access and no entries.
// With the next number 512 every fresh number is handed out.
pub fn session(next: u32) -> Session
    ensures next { result.next ≡ next }
    ensures access { result.access ≡ 0 }
    ensures start { result.span.start ≡ 0 }
    ensures end { result.span.end ≡ 0 }
    ensures entries { result.entries ≡ 0 }
{
    Session {
        next,
        access: 0,
        span: Span { start: 0, end: 0 },
        entries: 0,
    }
}

// Full tables of a state: one entry for each value number, Mutable {Other}, and every value in the set of every identifier.
pub fn fill_state(values: &mut [u64], sets: &mut [u64])
    ensures values { ValuesFilled 1024 values.old values.new }
    ensures sets { SetsFilled 512 sets.old sets.new }
{
    for v in 1..1024 {
        lent_values::put_value(values, v, DEFAULT);
    }
    for i in 0..512 {
        lent_set_writes::put_set(sets, i, &[u64::MAX; 16]);
    }
}
