// Keys of effects: `effect_key` of the Rust, as a struct with the identifiers of the captures beside it, and as a record of 28 lent words.
#![tactic(auto)]

ghost use Rattle.std.specs.Prelude.{◌≡◌, List, [], ℕ, ◌+◌, ◌*◌};
ghost use Rattle.def_effects.specs.Places.{identifiers};
ghost use Rattle.lent_tables.specs.Words as Words;
ghost use Rattle.lent_effects.specs.Records.{counted_places, captures_of};
ghost use Rattle.lent_keys.specs.KeyRecords.{key_with, numbers_in, listed, whole, put_numbers, option_in, put_option, key_head_in, put_head, put_key};

use lent_layout::ONE_RUN;
use lent_tables::Table;

// The key of an effect (`effect_key` of the Rust), without the identifiers of its captures.
// What a key does not hold is absent or 0. Keys are compared part by part as they stand here; whether one has captures goes by its code.
#[derive(Clone, Copy)]
#[derive_where(PartialEq, Eq, PartialOrd, Ord)]
pub struct Key {
    pub code: u32,
    pub from: Option<u32>,
    pub into: Option<u32>,
    pub kind: u32,
    pub reason: u32,
    pub function: Option<u32>,
    pub identity: u32,
    #[derive_where(skip(EqHashOrd))]
    pub captured: bool,
}

// A run of numbers in record `row` of a table: `count` of them from word `first` on, each `step` words after the one before.
// The identifiers of captures stand so: five words apart in an effect, one in a key.
#[derive(Clone, Copy)]
pub struct Numbers<'a> {
    pub table: Table,
    pub words: &'a [u32],
    pub row: usize,
    pub first: u32,
    pub step: u32,
    pub count: u32,
}

impl Numbers<'_> {
    // Number k of the run.
    // The numbers are small enough that nothing passes 64 bits.
    pub fn get(self, k: u32) -> u32
        ensures { result
            ≡ Words.field self.entry.table self.entry.words.now self.entry.row
            (self.entry.first + k * self.entry.step) }
    {
        let w = self.first as usize + (k as usize) * (self.step as usize);
        self.table.field(self.words, self.row, w)
    }
}

// A key with the identifiers of captures beside it.
// One that has no captures takes none of them.
#[derive(Clone, Copy)]
pub struct WholeKey<'a> {
    pub head: Key,
    pub beside: Numbers<'a>,
}

impl<'a> WholeKey<'a> {
    // A key with captures that are lent on their own.
    // The words of captures as an effect has them, five for each.
    pub fn new(head: Key, captures: &'a [u32]) -> Self
        ensures { whole result ≡ key_with head (identifiers (captures_of captures.now)) }
    {
        WholeKey {
            head,
            beside: captures_beside(captures),
        }
    }

    // The identifiers of the captures that the key has: of those beside it all or none.
    #[tactic(auto, using(crate::proofs::Laws::Number::none_listed), unfolding(crate::specs::KeyRecords::key_with))]
    pub fn captures(self) -> Numbers<'a>
        ensures { listed result ≡ (whole self.entry).captures }
    {
        if self.head.captured {
            return self.beside;
        }
        Numbers {
            count: 0,
            ..self.beside
        }
    }
}

// The identifiers of captures that are lent on their own, as beside a key.
pub fn captures_beside(captures: &[u32]) -> Numbers<'_>
    ensures { listed result ≡ identifiers (captures_of captures.now) }
{
    Numbers {
        table: ONE_RUN,
        words: captures,
        row: 0,
        first: 1,
        step: 5,
        count: ONE_RUN.field(captures, 0, 0),
    }
}

// The identifiers of the captures of the effect that stands in record i.
pub fn captures_in(t: Table, xs: &[u32], i: usize) -> Numbers<'_>
    ensures { listed result ≡ identifiers (counted_places t xs.now i 17) }
{
    Numbers {
        table: t,
        words: xs,
        row: i,
        first: 18,
        step: 5,
        count: t.field(xs, i, 17),
    }
}

// ---- a key as a record of 28 words

// A number that may be absent, at word w of record i: 0, or 1 and the number.
// Two words, so that every number can stand there.
pub fn option_in(t: Table, xs: &[u32], i: usize, w: u32) -> Option<u32>
    ensures { result ≡ option_in t xs.now i w }
{
    if t.field(xs, i, w as usize) == 0 {
        return None;
    }
    Some(t.field(xs, i, w as usize + 1))
}

// A number that may be absent is written at word w of record i.
// Where it is absent both words are zero.
pub fn put_option(t: Table, xs: &mut [u32], i: usize, w: u32, o: Option<u32>)
    ensures { xs.new ≡ put_option t xs.old i w o }
{
    match o {
        None => {
            t.put_field(xs, i, w as usize, 0);
            t.put_field(xs, i, w as usize + 1, 0);
        }
        Some(n) => {
            t.put_field(xs, i, w as usize, 1);
            t.put_field(xs, i, w as usize + 1, n);
        }
    }
}

// The key of record i, without the identifiers of its captures.
// What stands there is a key only where word 0 is not zero.
pub fn head_in(t: Table, xs: &[u32], i: usize) -> Key
    ensures { (is : List ℕ) → key_with result is ≡ key_head_in t xs.now i is }
{
    let code = t.field(xs, i, 1);
    let from = option_in(t, xs, i, 2);
    let into = option_in(t, xs, i, 4);
    let kind = t.field(xs, i, 6);
    let reason = t.field(xs, i, 7);
    let function = option_in(t, xs, i, 8);
    let identity = t.field(xs, i, 10);
    Key {
        code,
        from,
        into,
        kind,
        reason,
        function,
        identity,
        captured: true,
    }
}

// The identifiers of the captures of the key that stands in record i.
pub fn key_captures_in(t: Table, xs: &[u32], i: usize) -> Numbers<'_>
    ensures { listed result ≡ numbers_in t xs.now i 12 1 0 (Words.field t xs.now i 11) }
{
    Numbers {
        table: t,
        words: xs,
        row: i,
        first: 12,
        step: 1,
        count: t.field(xs, i, 11),
    }
}

// The numbers of a run are written one after the other from word 12 of record i on.
// What the record has no room for is not written.
fn put_identifiers(t: Table, xs: &mut [u32], i: usize, run: Numbers)
    ensures { xs.new ≡ put_numbers t xs.old i 12 1 0 (listed run.entry) }
{
    for k in 0..run.count {
        t.put_field(xs, i, 12 + (k as usize), run.get(k));
    }
}

// The words of a key before its captures are written as record i.
// Word 0 says that there is one.
fn put_head(t: Table, xs: &mut [u32], i: usize, key: Key)
    ensures { xs.new ≡ put_head t xs.old i (key_with key []) }
{
    t.put_field(xs, i, 0, 1);
    t.put_field(xs, i, 1, key.code);
    let from = key.from;
    put_option(t, xs, i, 2, from);
    let into = key.into;
    put_option(t, xs, i, 4, into);
    t.put_field(xs, i, 6, key.kind);
    t.put_field(xs, i, 7, key.reason);
    let function = key.function;
    put_option(t, xs, i, 8, function);
    t.put_field(xs, i, 10, key.identity);
}

// A key is written as record i, with the identifiers of its captures.
// All its words but those of captures that it does not have.
pub fn put_key(t: Table, xs: &mut [u32], i: usize, key: WholeKey)
    ensures { xs.new ≡ put_key t xs.old i (whole key.entry) }
{
    let identifiers = key.captures();
    put_head(t, xs, i, key.head);
    t.put_field(xs, i, 11, identifiers.count);
    put_identifiers(t, xs, i, identifiers);
}
