// Where everything stands in what is lent: a slice for each table of a context, how wide its records are and how many there can be,
// and the slices beside it. The definitions are in specs/, with the sentences of document 01; no other crate has a size of its own.
#![tactic(auto)]

use def_effects::{Diagnostic, Span};
use lent_tables::Table;

// ---- a context

// A diagnostic with its identity: a record of the table of diagnostics.
#[derive(Clone, Copy)]
pub struct Numbered {
    pub identity: u32,
    pub diagnostic: Diagnostic,
}

// A record that is not in use.
pub const UNUSED: Numbered = Numbered {
    identity: 0,
    diagnostic: Diagnostic {
        identifier: 0,
        case: 0,
        sentence: 0,
        name: 0,
        access: Span { start: 0, end: 0 },
        own: Span { start: 0, end: 0 },
    },
};

// A context as it is lent: a slice for each table, with as many records as there are or can be, and how many are in use.
// An instruction only reads options, identifiers and functions; it writes context places, links, keys and both orders; effects and diagnostics
// it appends.
#[derive(Drop)]
pub struct Context<'a> {
    pub options: u32,
    pub function_count: u32,
    pub effect_count: u32,
    pub key_count: u32,
    pub diagnostic_count: u32,
    pub identifiers: &'a mut [u32],
    pub functions: &'a mut [u32],
    pub contexts: &'a mut [u32],
    pub links: &'a mut [u32],
    pub keys: &'a mut [u32],
    pub key_order: &'a mut [u32],
    pub effects: &'a mut [u32],
    pub effect_order: &'a mut [u32],
    pub diagnostics: &'a mut [Numbered],
}

// Identifiers: flags, name, access start, end.
pub const IDENTIFIERS: Table = Table {
    base: 0,
    count: 512,
    width: 4,
};

// Functions: flags, count of context places, count of places mutated inside, 32 such places.
pub const FUNCTIONS: Table = Table {
    base: 0,
    count: 64,
    width: 163,
};

// The context places of each function, sixteen of five words.
pub const CONTEXTS: Table = Table {
    base: 0,
    count: 64,
    width: 80,
};

// The function of each fresh number: 0, or 1 and the function.
pub const LINKS: Table = Table {
    base: 0,
    count: 512,
    width: 2,
};

// The key under which each fresh number was handed out.
pub const CACHED: Table = Table {
    base: 0,
    count: 512,
    width: 28,
};

// The order of the cached keys: word j is the number whose key comes j-th.
pub const KEY_ORDER: Table = Table {
    base: 0,
    count: 512,
    width: 1,
};

// Interned effects.
pub const INTERNED: Table = Table {
    base: 0,
    count: 2048,
    width: 98,
};

// The order of the interned effects: word j is the record that comes j-th by its key.
pub const EFFECT_ORDER: Table = Table {
    base: 0,
    count: 2048,
    width: 1,
};

// How many words the tables have, of a context with room for all, that an instruction may write into: context places, links, keys, both orders.
pub const MOST_SAVED: usize = 23040;

// How many diagnostics there can be.
pub const DIAGNOSTICS: usize = 256;

// ---- effects in slices of their own

// How many words the record of an effect has.
pub const EFFECT_WORDS: usize = 98;

// The candidates of an instruction, and how many words the most of them have.
pub const CANDIDATES: Table = Table {
    base: 0,
    count: 64,
    width: 98,
};

pub const CANDIDATE_WORDS: usize = 6272;

// The output list. "The output list has 1,120 records (32 + 64 × 17, so it suffices)."
pub const OUTPUT: Table = Table {
    base: 0,
    count: 1120,
    width: 98,
};

pub const OUTPUT_WORDS: usize = 109760;

// The captures beside an effect: one record, a count and sixteen places.
pub const ONE_RUN: Table = Table {
    base: 0,
    count: 1,
    width: 81,
};

pub const RUN_WORDS: usize = 81;

// The places that a function mutates inside: one record, a count and 32 places.
pub const INSIDE: Table = Table {
    base: 0,
    count: 1,
    width: 161,
};

pub const INSIDE_WORDS: usize = 161;
