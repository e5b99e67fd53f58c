// Tables of records in lent words: word w of record i, read and written within the table's own words only.
// Several tables stand in one lent slice, so each access tests that the table has such a word.
#![tactic(auto)]

ghost use Rattle.std.specs.Prelude.{◌≡◌, ◌+◌, ◌*◌};
ghost use Rattle.lent_tables.specs.Words.{field, put_field, copied_words, place_in, put_place};

use def_effects::{Place, Span};
use lent_slices::{get_or, set};

// A table in a lent slice: where it begins, how many records it has, and how many words each.
// The tables of a context and the records of effects are given by these three numbers.
#[derive(Clone, Copy)]
pub struct Table {
    pub base: u32,
    pub count: u32,
    pub width: u32,
}

impl Table {
    // Word w of record i, 0 where the table has no such word.
    // Reading is total: a large number does not lead into the next table.
    pub fn field(self, xs: &[u32], i: usize, w: usize) -> u32
        ensures { result ≡ field self xs.now i w }
    {
        if i >= (self.count as usize) {
            return 0;
        }
        if w >= (self.width as usize) {
            return 0;
        }
        get_or(xs, self.base as usize + i * (self.width as usize) + w, 0)
    }

    // Word w of record i becomes x; nothing changes where the table has no such word.
    pub fn put_field(self, xs: &mut [u32], i: usize, w: usize, x: u32)
        ensures { xs.new ≡ put_field self xs.old i w x }
    {
        if i >= (self.count as usize) {
            return;
        }
        if w >= (self.width as usize) {
            return;
        }
        set(xs, self.base as usize + i * (self.width as usize) + w, x);
    }

    // The n words of record i from word w on are copied to a slice, from its word `at` on.
    // Words that the table does not have are copied as 0.
    pub fn copy_words(self, xs: &[u32], i: usize, w: u32, n: u32, out: &mut [u32], at: u32)
        ensures { out.new ≡ copied_words self xs.now i w n out.old at }
    {
        for k in 0..n {
            let word = self.field(xs, i, w as usize + k as usize);
            set(out, at as usize + k as usize, word);
        }
    }

    // Place k of a run of places that begins at word `first` of record i.
    // A single place is place 0 of its run.
    pub fn place_in(self, xs: &[u32], i: usize, first: u32, k: u32) -> Place
        ensures { result ≡ place_in self xs.now i (first + k * 5) }
    {
        let w = first as usize + (k as usize) * 5;
        let identifier = self.field(xs, i, w);
        let effect = self.field(xs, i, w + 1);
        let reactive = self.field(xs, i, w + 2);
        let start = self.field(xs, i, w + 3);
        let end = self.field(xs, i, w + 4);
        let span = Span { start, end };
        Place {
            identifier,
            effect,
            reactive,
            span,
        }
    }

    // Place k of a run of places is written.
    // Of its five words those that the record has no room for are not written.
    pub fn put_place(self, xs: &mut [u32], i: usize, first: u32, k: u32, p: Place)
        ensures { xs.new ≡ put_place self xs.old i (first + k * 5) p }
    {
        let w = first as usize + (k as usize) * 5;
        self.put_field(xs, i, w, p.identifier);
        self.put_field(xs, i, w + 1, p.effect);
        self.put_field(xs, i, w + 2, p.reactive);
        self.put_field(xs, i, w + 3, p.span.start);
        self.put_field(xs, i, w + 4, p.span.end);
    }
}
