// Effects as records of lent words. The enum is AliasingEffect of the Rust without Apply; a CreateFunction's captures stand beside it,
// in a slice of 81 words: a count and sixteen places. The record of 98 words serves candidates, interned effects and the output list.
#![tactic(auto)]

ghost use Rattle.std.specs.Prelude.{◌≡◌};
ghost use Rattle.def_kinds.specs.Kinds as Kinds;
ghost use Rattle.def_effects.specs.Effects.{code_of, Create, CreateFunction};
ghost use Rattle.lent_tables.specs.Words.{put_places};
ghost use Rattle.lent_effects.specs.Records as Records;
ghost use Rattle.lent_effects.specs.Records.{effect_in, captures_of, copied_captures};

use def_effects::{AliasingDiagnostic, Place};
use def_kinds::ValueKind;
use lent_layout::{ONE_RUN, RUN_WORDS};
use lent_tables::Table;

// An effect, without the captures of a CreateFunction: AliasingEffect of the Rust.
// Places come in the order from, into; a mutation reason is 0 for none, else 1 + its place in MutationReason.
#[derive(Clone, Copy)]
pub enum AliasingEffect {
    Freeze {
        place: Place,
        reason: u32,
    },
    Mutate {
        place: Place,
        reason: u32,
    },
    MutateConditionally {
        place: Place,
    },
    MutateTransitive {
        place: Place,
    },
    MutateTransitiveConditionally {
        place: Place,
    },
    Capture {
        from: Place,
        into: Place,
    },
    Alias {
        from: Place,
        into: Place,
    },
    MaybeAlias {
        from: Place,
        into: Place,
    },
    Assign {
        from: Place,
        into: Place,
    },
    Create {
        into: Place,
        kind: ValueKind,
        reason: u32,
    },
    CreateFrom {
        from: Place,
        into: Place,
    },
    ImmutableCapture {
        from: Place,
        into: Place,
    },
    CreateFunction {
        function: u32,
        into: Place,
    },
    MutateFrozen {
        place: Place,
        error: AliasingDiagnostic,
    },
    MutateGlobal {
        place: Place,
        error: AliasingDiagnostic,
    },
    Impure {
        place: Place,
        error: AliasingDiagnostic,
    },
    Render {
        place: Place,
    },
}

// The number of a kind, as a word.
// This is kind as u32 of the Rust.
pub fn kind_word(k: ValueKind) -> u32
    ensures { result ≡ Kinds.code_of k }
{
    k as u32
}

// The code of the effect of record i.
// A search passes over records of other codes without reading them.
pub fn code_in(t: Table, xs: &[u32], i: usize) -> u32
    ensures { result ≡ code_of (effect_in t xs.now i) }
{
    let code = t.field(xs, i, 0);
    if code > 17 {
        return 17;
    }
    if code == 12 {
        return 17;
    }
    code
}

// A code and a place are written as record i.
// Every effect with one place that is no destination begins so.
pub fn put_one(t: Table, xs: &mut [u32], i: usize, code: u32, p: Place)
    ensures { xs.new ≡ Records.one_place t xs.old i code p }
{
    t.put_field(xs, i, 0, code);
    t.put_place(xs, i, 1, 0, p);
}

// A code and two places are written as record i.
pub fn put_two(t: Table, xs: &mut [u32], i: usize, code: u32, from: Place, into: Place)
    ensures { xs.new ≡ Records.two_places t xs.old i code from into }
{
    put_one(t, xs, i, code, from);
    t.put_place(xs, i, 6, 0, into);
}

// The places of captures are written from word 18 of record i on.
// What the record has no room for is not written.
pub fn put_captures(t: Table, xs: &mut [u32], i: usize, captures: &[u32])
    ensures { xs.new ≡ put_places t xs.old i 18 0 (captures_of captures.now) }
{
    let n = ONE_RUN.field(captures, 0, 0);
    for k in 0..n {
        t.put_place(xs, i, 18, k, ONE_RUN.place_in(captures, 0, 1, k));
    }
}

// The captures of record i are copied to a slice of 81 words: the count, then the places.
// The record may change while they are gone through, so they are copied first.
pub fn copy_captures(t: Table, xs: &[u32], i: usize, out: &mut [u32])
    ensures { out.new ≡ copied_captures t xs.now i out.old }
{
    t.copy_words(xs, i, 17, RUN_WORDS as u32, out, 0);
}
