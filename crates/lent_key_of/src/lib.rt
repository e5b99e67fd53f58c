// The key of an effect. The words of a key are in `lent_keys`.
#![tactic(auto)]

ghost use Rattle.std.specs.Prelude.{◌≡◌, List, ℕ};
ghost use Rattle.def_effects.specs.declared.Place.{Place as APlace};
ghost use Rattle.def_effects.specs.Keys.{one, two, effect_key};
ghost use Rattle.def_effects.specs.Places.{identifiers};
ghost use Rattle.lent_effects.specs.Records.{effect_with};
ghost use Rattle.lent_keys.specs.KeyRecords.{key_with};

use def_effects::Place;
use lent_effects::{AliasingEffect, kind_word};
use lent_keys::Key;

// The key of an effect with one place that is no destination.
// Reason and identity are 0 where the key has none.
fn one_key(code: u32, p: Place, reason: u32, identity: u32) -> Key
    ensures { (is : List ℕ) → key_with result is ≡ one code p reason identity }
{
    Key {
        code,
        from: Some(p.identifier),
        into: None,
        kind: 0,
        reason,
        function: None,
        identity,
        captured: false,
    }
}

// The key of an effect with a source and a destination.
// The synthetic keys of Assign have this shape too.
pub fn two_key(code: u32, from: Place, into: Place) -> Key
    ensures { (is : List ℕ) → key_with result is ≡ two code from into }
{
    Key {
        code,
        from: Some(from.identifier),
        into: Some(into.identifier),
        kind: 0,
        reason: 0,
        function: None,
        identity: 0,
        captured: false,
    }
}

// The key of an effect, without the identifiers of its captures.
// Not in the key: Mutate's reason, and the diagnostic of Impure.
pub fn key_of(e: AliasingEffect) -> Key
    ensures { (cs : List APlace) → key_with result (identifiers cs) ≡ effect_key (effect_with e cs) }
{
    match e {
        AliasingEffect::Freeze { place, reason } => one_key(0, place, reason, 0),
        AliasingEffect::Mutate { place, reason: _ } => one_key(1, place, 0, 0),
        AliasingEffect::MutateConditionally { place } => one_key(2, place, 0, 0),
        AliasingEffect::MutateTransitive { place } => one_key(3, place, 0, 0),
        AliasingEffect::MutateTransitiveConditionally { place } => one_key(4, place, 0, 0),
        AliasingEffect::Capture { from, into } => two_key(5, from, into),
        AliasingEffect::Alias { from, into } => two_key(6, from, into),
        AliasingEffect::MaybeAlias { from, into } => two_key(7, from, into),
        AliasingEffect::Assign { from, into } => two_key(8, from, into),
        AliasingEffect::Create { into, kind, reason } => Key {
            code: 9,
            from: None,
            into: Some(into.identifier),
            kind: kind_word(kind),
            reason,
            function: None,
            identity: 0,
            captured: false,
        },
        AliasingEffect::CreateFrom { from, into } => two_key(10, from, into),
        AliasingEffect::ImmutableCapture { from, into } => two_key(11, from, into),
        AliasingEffect::CreateFunction { function, into } => Key {
            code: 13,
            from: None,
            into: Some(into.identifier),
            kind: 0,
            reason: 0,
            function: Some(function),
            identity: 0,
            captured: true,
        },
        AliasingEffect::MutateFrozen { place, error } => one_key(14, place, 0, error.identity),
        AliasingEffect::MutateGlobal { place, error } => one_key(15, place, 0, error.identity),
        AliasingEffect::Impure { place, error: _ } => one_key(16, place, 0, 0),
        AliasingEffect::Render { place } => one_key(17, place, 0, 0),
    }
}
