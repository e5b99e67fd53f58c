// An effect written to its record: every word of the record is set.
#![tactic(auto)]

ghost use Rattle.std.specs.Prelude.{◌≡◌};
ghost use Rattle.def_effects.specs.Effects.{Create, CreateFunction};
ghost use Rattle.lent_effects.specs.Records as Records;
ghost use Rattle.lent_effects.specs.Records.{effect_with, put_effect, captures_of};

use def_effects::{AliasingDiagnostic, Place};
use def_kinds::ValueKind;
use lent_effects::{AliasingEffect, kind_word, put_captures, put_one, put_two};
use lent_layout::ONE_RUN;
use lent_tables::Table;

// A code, a place and a diagnostic are written as record i.
// Both numbers of the diagnostic stand in the record.
fn put_reported(t: Table, xs: &mut [u32], i: usize, code: u32, p: Place, d: AliasingDiagnostic)
    ensures { xs.new ≡ Records.reported t xs.old i code p d }
{
    put_one(t, xs, i, code, p);
    t.put_field(xs, i, 15, d.identity);
    t.put_field(xs, i, 16, d.instance);
}

// A Create is written as record i.
// Its destination is the second place.
fn put_create(t: Table, xs: &mut [u32], i: usize, into: Place, kind: ValueKind, reason: u32)
    ensures { xs.new ≡ put_effect t xs.old i (Create into kind reason) }
{
    t.put_field(xs, i, 0, 9);
    t.put_place(xs, i, 6, 0, into);
    t.put_field(xs, i, 11, kind_word(kind));
    t.put_field(xs, i, 12, reason);
}

// A CreateFunction is written as record i, with its captures.
// Its destination is the second place.
fn put_function(t: Table, xs: &mut [u32], i: usize, function: u32, into: Place, captures: &[u32])
    ensures { xs.new ≡ put_effect t xs.old i (CreateFunction (captures_of captures.now) function into) }
{
    t.put_field(xs, i, 0, 13);
    t.put_place(xs, i, 6, 0, into);
    t.put_field(xs, i, 14, function);
    t.put_field(xs, i, 17, ONE_RUN.field(captures, 0, 0));
    put_captures(t, xs, i, captures);
}

// An effect is written as record i.
// The record was zero: words that the effect has no use for are not written.
pub fn put_effect(t: Table, xs: &mut [u32], i: usize, e: AliasingEffect, captures: &[u32])
    ensures { xs.new ≡ put_effect t xs.old i (effect_with e (captures_of captures.now)) }
{
    match e {
        AliasingEffect::Freeze { place, reason } => {
            put_one(t, xs, i, 0, place);
            t.put_field(xs, i, 12, reason);
        }
        AliasingEffect::Mutate { place, reason } => {
            put_one(t, xs, i, 1, place);
            t.put_field(xs, i, 13, reason);
        }
        AliasingEffect::MutateConditionally { place } => put_one(t, xs, i, 2, place),
        AliasingEffect::MutateTransitive { place } => put_one(t, xs, i, 3, place),
        AliasingEffect::MutateTransitiveConditionally { place } => put_one(t, xs, i, 4, place),
        AliasingEffect::Capture { from, into } => put_two(t, xs, i, 5, from, into),
        AliasingEffect::Alias { from, into } => put_two(t, xs, i, 6, from, into),
        AliasingEffect::MaybeAlias { from, into } => put_two(t, xs, i, 7, from, into),
        AliasingEffect::Assign { from, into } => put_two(t, xs, i, 8, from, into),
        AliasingEffect::Create { into, kind, reason } => put_create(t, xs, i, into, kind, reason),
        AliasingEffect::CreateFrom { from, into } => put_two(t, xs, i, 10, from, into),
        AliasingEffect::ImmutableCapture { from, into } => put_two(t, xs, i, 11, from, into),
        AliasingEffect::CreateFunction { function, into } => put_function(
            t, xs, i, function, into, captures,
        ),
        AliasingEffect::MutateFrozen { place, error } => put_reported(t, xs, i, 14, place, error),
        AliasingEffect::MutateGlobal { place, error } => put_reported(t, xs, i, 15, place, error),
        AliasingEffect::Impure { place, error } => put_reported(t, xs, i, 16, place, error),
        AliasingEffect::Render { place } => put_one(t, xs, i, 17, place),
    }
}
