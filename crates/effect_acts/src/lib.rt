// What an effect does, by its kind, and what comes after the part of a step that is done.
// The step itself and the functions that derive effects are in the crate `effect_apply`. After apply_effect of the Rust.
#![tactic(auto)]

ghost use Rattle.std.specs.Prelude.{◌≡◌};
ghost use Rattle.effect_acts.specs.Acts.{act_of};

use def_effects::{MutateVariant, Place};
use lent_effects::AliasingEffect;

// The flows between two places: Capture, Alias, which asks that its destination was initialized, and MaybeAlias.
// AliasAsMaybe asks what an Alias does and flows like a MaybeAlias; no effect is one.
#[derive(Clone, Copy)]
pub enum FlowKind {
    Capture,
    Alias,
    MaybeAlias,
    AliasAsMaybe,
}

// What an effect does, by its kind: a mutation, a flow between two places, what derives others, or none of these.
#[derive(Clone, Copy)]
pub enum Act {
    Plain,
    Mutating {
        variant: MutateVariant,
        place: Place,
    },
    Flowing {
        kind: FlowKind,
        from: Place,
        into: Place,
    },
    Assigning {
        from: Place,
        into: Place,
    },
    CreatingFrom {
        from: Place,
        into: Place,
    },
    CreatingFunction {
        function: u32,
        into: Place,
    },
}

// What comes after the part of a step that is done: nothing, the effect itself is listed, or another effect is derived.
// A derived effect goes through the same step.
#[derive(Clone, Copy)]
pub enum Next {
    Nothing,
    Itself,
    Derived(AliasingEffect),
}

// What an effect does.
// What lists only itself, or derives nothing, is plain.
pub fn act_of(e: AliasingEffect) -> Act
    ensures { result ≡ act_of e }
{
    match e {
        AliasingEffect::Mutate { place, reason: _ } => Act::Mutating {
            variant: MutateVariant::Mutate,
            place,
        },
        AliasingEffect::MutateConditionally { place } => Act::Mutating {
            variant: MutateVariant::MutateConditionally,
            place,
        },
        AliasingEffect::MutateTransitive { place } => Act::Mutating {
            variant: MutateVariant::MutateTransitive,
            place,
        },
        AliasingEffect::MutateTransitiveConditionally { place } => Act::Mutating {
            variant: MutateVariant::MutateTransitiveConditionally,
            place,
        },
        AliasingEffect::Capture { from, into } => Act::Flowing {
            kind: FlowKind::Capture,
            from,
            into,
        },
        AliasingEffect::Alias { from, into } => Act::Flowing {
            kind: FlowKind::Alias,
            from,
            into,
        },
        AliasingEffect::MaybeAlias { from, into } => Act::Flowing {
            kind: FlowKind::MaybeAlias,
            from,
            into,
        },
        AliasingEffect::Assign { from, into } => Act::Assigning { from, into },
        AliasingEffect::CreateFrom { from, into } => Act::CreatingFrom { from, into },
        AliasingEffect::CreateFunction { function, into } => Act::CreatingFunction {
            function,
            into,
        },
        _ => Act::Plain,
    }
}
