// An effect read from its record.
#![tactic(auto)]

ghost use Rattle.std.specs.Prelude.{◌≡◌};
ghost use Rattle.def_effects.specs.Effects.{Create, CreateFunction};
ghost use Rattle.lent_effects.specs.Records as Records;
ghost use Rattle.lent_effects.specs.Records.{head_in};

use def_effects::AliasingDiagnostic;
use def_kinds::ValueKind;
use lent_effects::AliasingEffect;
use lent_tables::Table;

// The diagnostic of record i.
// Its identity is part of the key, its instance is its place in the table.
fn diagnostic_in(t: Table, xs: &[u32], i: usize) -> AliasingDiagnostic
    ensures { result ≡ Records.diagnostic t xs.now i }
{
    let identity = t.field(xs, i, 15);
    let instance = t.field(xs, i, 16);
    AliasingDiagnostic { identity, instance }
}

// The effect of record i, without its captures.
// A number that is no code reads as Render; such a record is refused before it is used.
pub fn effect_in(t: Table, xs: &[u32], i: usize) -> AliasingEffect
    ensures { result ≡ head_in t xs.now i }
{
    let code = t.field(xs, i, 0);
    match code {
        0 => AliasingEffect::Freeze {
            place: t.place_in(xs, i, 1, 0),
            reason: t.field(xs, i, 12),
        },
        1 => AliasingEffect::Mutate {
            place: t.place_in(xs, i, 1, 0),
            reason: t.field(xs, i, 13),
        },
        2 => AliasingEffect::MutateConditionally {
            place: t.place_in(xs, i, 1, 0),
        },
        3 => AliasingEffect::MutateTransitive {
            place: t.place_in(xs, i, 1, 0),
        },
        4 => AliasingEffect::MutateTransitiveConditionally {
            place: t.place_in(xs, i, 1, 0),
        },
        5 => AliasingEffect::Capture {
            from: t.place_in(xs, i, 1, 0),
            into: t.place_in(xs, i, 6, 0),
        },
        6 => AliasingEffect::Alias {
            from: t.place_in(xs, i, 1, 0),
            into: t.place_in(xs, i, 6, 0),
        },
        7 => AliasingEffect::MaybeAlias {
            from: t.place_in(xs, i, 1, 0),
            into: t.place_in(xs, i, 6, 0),
        },
        8 => AliasingEffect::Assign {
            from: t.place_in(xs, i, 1, 0),
            into: t.place_in(xs, i, 6, 0),
        },
        9 => AliasingEffect::Create {
            into: t.place_in(xs, i, 6, 0),
            kind: ValueKind::of_code(t.field(xs, i, 11)),
            reason: t.field(xs, i, 12),
        },
        10 => AliasingEffect::CreateFrom {
            from: t.place_in(xs, i, 1, 0),
            into: t.place_in(xs, i, 6, 0),
        },
        11 => AliasingEffect::ImmutableCapture {
            from: t.place_in(xs, i, 1, 0),
            into: t.place_in(xs, i, 6, 0),
        },
        13 => AliasingEffect::CreateFunction {
            function: t.field(xs, i, 14),
            into: t.place_in(xs, i, 6, 0),
        },
        14 => AliasingEffect::MutateFrozen {
            place: t.place_in(xs, i, 1, 0),
            error: diagnostic_in(t, xs, i),
        },
        15 => AliasingEffect::MutateGlobal {
            place: t.place_in(xs, i, 1, 0),
            error: diagnostic_in(t, xs, i),
        },
        16 => AliasingEffect::Impure {
            place: t.place_in(xs, i, 1, 0),
            error: diagnostic_in(t, xs, i),
        },
        _ => AliasingEffect::Render {
            place: t.place_in(xs, i, 1, 0),
        },
    }
}
