// The values of a place frozen.
#![tactic(auto)]

ghost use Rattle.std.specs.Prelude.{◌≡◌};
ghost use Rattle.lent_sets.specs.Rows.{set_at};
ghost use Rattle.base_sets.specs.Members.{values_of};
ghost use Rattle.state_ops.specs.Lists.{frozen, freeze_all, freezes, frozen_values};

use def_kinds::{AbstractValue, ValueKind, single};
use lent_members::members;
use lent_sets::is_defined;
use lent_values::put_value;
use state_ops::kind_of;

// A value becomes Frozen with one reason.
// The walk freezes a value before it enters it.
pub fn freeze_value(values: &mut [u64], v: u32, reason: u32)
    ensures { values.new ≡ frozen values.old v reason }
{
    let frozen = AbstractValue {
        kind: ValueKind::Frozen,
        reason: single(reason),
    };
    put_value(values, v as usize, frozen);
}

// Every value of a place becomes Frozen with that one reason.
// A place that is not defined has no values.
pub fn freeze_values(values: &mut [u64], sets: &[u64], i: u32, reason: u32)
    ensures { values.new ≡ freeze_all reason (values_of (set_at sets.now i)) values.old }
{
    for m in members(sets, i) {
        freeze_value(values, m, reason);
    }
}

// Freezes a place that is defined and Mutable, Context or MaybeFrozen, and says whether it did; no access is recorded.
// This is freeze of the Rust.
#[tactic(auto, unfolding(state_ops::specs::Lists::freezes, state_ops::specs::Lists::frozen_values))]
pub fn freeze(values: &mut [u64], sets: &[u64], i: u32, reason: u32) -> bool
    ensures { (result ≡ freezes values.old sets.now i)
        × (values.new ≡ frozen_values values.old sets.now i reason) }
{
    let acts = is_defined(sets, i) && kind_of(values, sets, i).kind.is_freezable();
    if acts {
        freeze_values(values, sets, i, reason);
    }
    acts
}
