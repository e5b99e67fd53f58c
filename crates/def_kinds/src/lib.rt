// Kinds and reasons of a value (document 01, module 1): the join of two abstract values, and its order.
// After type_config.rs, and merge_value_kinds, merge_abstract_values and is_superset of the Rust.
#![tactic(auto)]

ghost use Rattle.std.specs.Prelude.{◌≡◌};
ghost use Rattle.def_kinds.specs.Kinds.{code_of, kind_at, join_kind, freezable, writable, copied, is_frozen};
ghost use Rattle.def_kinds.specs.Reasons.{is_reason, are_reasons, has_reason, single};
ghost use Rattle.def_kinds.specs.Values.{join, contains, above};

// Whether a value may be written: the Rust's ValueKind, in its order.
#[derive(Clone, Copy, Debug, PartialEq, Eq)]
pub enum ValueKind {
    Mutable,
    Frozen,
    Primitive,
    MaybeFrozen,
    Global,
    Context,
}

// How many reasons there are: numbers below this one are reasons, and bit n of a set is reason n.
const REASONS: u32 = 12;

// The first word that is no set of reasons: 2 to the power REASONS.
const REASON_SETS: u64 = 4096;

// The joins of a kind with each of the six: document 01's table, a row for each kind and a column for each.
const JOINS: [[u32; 6]; 6] = [
    [0, 3, 0, 3, 0, 5],
    [3, 1, 1, 3, 1, 3],
    [0, 1, 2, 3, 4, 5],
    [3, 3, 3, 3, 3, 3],
    [0, 1, 4, 3, 4, 5],
    [5, 3, 5, 3, 5, 5],
];

impl ValueKind {
    // Document 01's number of a kind.
    // Tables and images hold kinds by their numbers.
    pub fn code(self) -> usize
        ensures { result ≡ code_of self }
    {
        self as usize
    }

    // The kind of a number, read back from a table.
    // A number above 5 is no kind and reads as MaybeFrozen, the top, so that the answer is total.
    pub fn of_code(n: u32) -> ValueKind
        ensures { result ≡ kind_at n }
    {
        match n {
            0 => ValueKind::Mutable,
            1 => ValueKind::Frozen,
            2 => ValueKind::Primitive,
            4 => ValueKind::Global,
            5 => ValueKind::Context,
            _ => ValueKind::MaybeFrozen,
        }
    }

    // The join of two kinds, by the table.
    pub fn join(self, other: ValueKind) -> ValueKind
        ensures { result ≡ join_kind self other }
    {
        ValueKind::of_code(JOINS[self.code()][other.code()])
    }

    // Whether a place of that kind can be frozen.
    // Freeze and the freeze walk act on no other.
    pub fn is_freezable(self) -> bool
        ensures { result ≡ freezable self }
    {
        matches!(
            self,
            ValueKind::Mutable | ValueKind::MaybeFrozen | ValueKind::Context
        )
    }

    // Whether a place of that kind may be written.
    // The write test, and what a mutation asks first.
    pub fn is_writable(self) -> bool
        ensures { result ≡ writable self }
    {
        matches!(self, ValueKind::Mutable | ValueKind::Context)
    }

    // Whether a copy of such a value shares nothing with it.
    pub fn is_copied(self) -> bool
        ensures { result ≡ copied self }
    {
        matches!(self, ValueKind::Primitive | ValueKind::Global)
    }

    // Whether it is Frozen, and surely so.
    // A mutation of it is an error of its own kind.
    pub fn is_frozen(self) -> bool
        ensures { result ≡ is_frozen self }
    {
        matches!(self, ValueKind::Frozen)
    }
}

// The set of one reason; there is none past bit 31.
// This is ReasonSet::single.
pub fn single(n: u32) -> u32
    ensures { result ≡ single n }
{
    if n < 32 { 1 << n } else { 0 }
}

// Whether a number is a reason.
// Words of a lent table or an image are tested by it before they are used.
pub fn is_reason(n: u32) -> bool
    ensures { result ≡ is_reason n }
{
    n < REASONS
}

// Whether a word is a set of reasons: no bit but those of reasons.
// Words of a lent table or an image are tested by it before they are used.
pub fn are_reasons(s: u32) -> bool
    ensures { result ≡ are_reasons s }
{
    (s as u64) < REASON_SETS
}

// Whether a set has a reason; it has none past bit 31.
// This is ReasonSet::contains.
pub fn has_reason(s: u32, n: u32) -> bool
    ensures { result ≡ has_reason s n }
{
    n < 32 && (s >> n) % 2 == 1
}

// What is known of a value: its kind, and the set of reasons for it.
#[derive(Clone, Copy, Debug, PartialEq, Eq)]
pub struct AbstractValue {
    pub kind: ValueKind,
    pub reason: u32,
}

// Mutable {Other}: what an undefined place has, and one whose values have no entry.
pub const DEFAULT: AbstractValue = AbstractValue {
    kind: ValueKind::Mutable,
    reason: 2048,
};

impl AbstractValue {
    // Kinds by the table, reasons by union.
    pub fn join(self, other: AbstractValue) -> AbstractValue
        ensures { result ≡ join self other }
    {
        AbstractValue {
            kind: self.kind.join(other.kind),
            reason: self.reason | other.reason,
        }
    }

    // Whether each reason of the other is one of ours.
    pub fn contains(self, other: AbstractValue) -> bool
        ensures { result ≡ contains self other }
    {
        self.reason | other.reason == self.reason
    }

    // Whether joining the other onto ours leaves ours: same kind, no reason more.
    // A state that is above another everywhere gains nothing by a merge.
    pub fn above(self, other: AbstractValue) -> bool
        ensures { result ≡ above self other }
    {
        self.kind.join(other.kind).code() == self.kind.code() && self.contains(other)
    }
}
