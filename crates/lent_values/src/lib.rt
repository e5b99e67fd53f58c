// The values of a state: a lent word for each value number, 0 for no entry, else 1 + kind in the three low bits and the reasons above.
#![tactic(auto)]

ghost use Rattle.std.specs.Prelude.{◌≡◌, ◌/◌, ◌%◌};
ghost use Rattle.base_orders.specs.Options.{join_option};
ghost use Rattle.def_kinds.specs.Values.{join, or_default};
ghost use Rattle.lent_values.specs.Cells.{cell_of, word_of, value_at, put_value};

use def_kinds::{AbstractValue, DEFAULT, ValueKind};
use lent_slices::{get_or, set};

// The low bits of a number.
// A kind's number is cut out of a word by it.
fn low(x: u64) -> u32
    ensures { result ≡ x % 8 }
{
    (x % 8) as u32
}

// The reasons of a word.
// Words of any number are read, so what is past 32 bits is cut off.
fn high(x: u64) -> u32
    ensures { result ≡ x / 8 % 4294967296 }
{
    (x / 8 % 4294967296) as u32
}

// What a word says.
// 7 in the low bits is no kind and reads as MaybeFrozen; such a state is refused before it is used.
pub fn entry_of(x: u64) -> Option<AbstractValue>
    ensures { result ≡ cell_of x }
{
    let tag = low(x);
    if tag == 0 {
        return None;
    }
    let kind = ValueKind::of_code(tag - 1);
    let reason = high(x);
    Some(AbstractValue { kind, reason })
}

// The word of an abstract value.
// The kind's number and one, with the reasons above it.
pub fn word_of(a: AbstractValue) -> u64
    ensures { result ≡ word_of a }
{
    let kind = a.kind;
    (a.reason as u64) * 8 + (kind.code() as u64) + 1
}

// The entry of value v; past the end there is none.
// This is values.get of the Rust.
#[tactic(auto, unfolding(crate::specs::Cells::value_at))]
pub fn value_at(values: &[u64], v: usize) -> Option<AbstractValue>
    ensures { result ≡ value_at values.now v }
{
    entry_of(get_or(values, v, 0))
}

// Value v gets kind and reasons a; past the end nothing happens.
// This is initialize of the Rust.
#[tactic(auto, unfolding(crate::specs::Cells::put_value))]
pub fn put_value(values: &mut [u64], v: usize, a: AbstractValue)
    ensures { values.new ≡ put_value values.old v a }
{
    set(values, v, word_of(a));
}

// Both: what is absent adds nothing, and two values are joined.
// A place's kind is made by it, and a merged state.
#[tactic(auto, unfolding(base_orders::specs::Options::join_option))]
pub fn join_entries(
    first: Option<AbstractValue>,
    second: Option<AbstractValue>,
) -> Option<AbstractValue>
    ensures { result ≡ join_option join first second }
{
    match (first, second) {
        (None, _) => second,
        (_, None) => first,
        (Some(a), Some(b)) => Some(a.join(b)),
    }
}

// The value, or Mutable {Other}.
// An undefined place, and one whose values have no entry, have that kind.
pub fn or_default(entry: Option<AbstractValue>) -> AbstractValue
    ensures { result ≡ or_default entry }
{
    entry.unwrap_or(DEFAULT)
}
