// Whether a diagnostic of a context repeats one before it.
// Each search goes through the records before the one that is tested.
#![tactic(auto)]

ghost use Rattle.std.specs.Prelude.{◌≡◌};
ghost use Rattle.refuse_repeats.specs.Repeats.{diagnostic_twice};

use lent_diagnostics::{diagnostic_in, identities_before, identity_before, instance_before};
use lent_layout::Numbered;

// Whether diagnostic k has another identity than it has to, or there is an equal one before it.
// Wrong order, or two entries of one key. A message that is new has the next identity, which no record before it has.
pub fn diagnostic_twice(diagnostics: &[Numbered], k: u32) -> bool
    ensures { result ≡ diagnostic_twice diagnostics.now k }
{
    let x = diagnostic_in(diagnostics, k);
    match identity_before(diagnostics, k, x.diagnostic) {
        None => x.identity as u64 != identities_before(diagnostics, k),
        Some(m) => x.identity != m || instance_before(diagnostics, k, x).is_some(),
    }
}
