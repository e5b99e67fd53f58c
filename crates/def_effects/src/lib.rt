// The plain data of document 01: spans, places, the two numbers of a diagnostic, the session. After mod.rs of the Rust.
#![tactic(auto)]

ghost use Rattle.std.specs.Prelude.{◌≡◌, true, false};
ghost use Rattle.def_effects.specs.Mutation.{is_strict, result_of};

use def_kinds::ValueKind;

// Where a place stands in the source; FFFFFFFF (hexadecimal) twice is no span.
#[derive(Clone, Copy, PartialEq, Eq)]
pub struct Span {
    pub start: u32,
    pub end: u32,
}

// No span: a use or a label of which no place is known.
pub const NO_SPAN: Span = Span {
    start: 4294967295,
    end: 4294967295,
};

// A place: an identifier with what is done to it there (`Effect` by its number), and where.
#[derive(Clone, Copy)]
pub struct Place {
    pub identifier: u32,
    pub effect: u32,
    pub reactive: u32,
    pub span: Span,
}

// The two numbers of a diagnostic: its identity is part of an effect's key, its instance is its place in the table.
#[derive(Clone, Copy)]
pub struct AliasingDiagnostic {
    pub identity: u32,
    pub instance: u32,
}

// A diagnostic: its identifier, message case, sentence and name numbers, and its label spans by their roles, the access and the place itself.
// Message case 0 is a value that cannot be modified, case 1 an access before the declaration; FFFFFFFF twice is no label.
#[derive(Clone, Copy)]
pub struct Diagnostic {
    pub identifier: u32,
    pub case: u32,
    pub sentence: u32,
    pub name: u32,
    pub access: Span,
    pub own: Span,
}

// The session: next number, first undefined access (0, or 1 + identifier, with the span of that use), walk entries.
#[derive(Clone, Copy)]
pub struct Session {
    pub next: u32,
    pub access: u32,
    pub span: Span,
    pub entries: u32,
}

// The four effects that mutate: the Rust's MutateVariant.
#[derive(Clone, Copy)]
pub enum MutateVariant {
    Mutate,
    MutateConditionally,
    MutateTransitive,
    MutateTransitiveConditionally,
}

// What a mutation of a place comes to: the Rust's MutationResult.
#[derive(Clone, Copy)]
pub enum MutationResult {
    None,
    Mutate,
    MutateFrozen,
    MutateGlobal,
    MutateRef,
}

// Whether a mutation is one of the two that are not conditional.
// These are told where they cannot be.
pub fn is_strict(variant: MutateVariant) -> bool
    ensures { result ≡ is_strict variant }
{
    match variant {
        MutateVariant::Mutate => true,
        MutateVariant::MutateConditionally => false,
        MutateVariant::MutateTransitive => true,
        MutateVariant::MutateTransitiveConditionally => false,
    }
}

// What a strict mutation of a kind comes to.
// What is frozen, or may be, and what is global is not to be written.
fn strict_result(kind: ValueKind) -> MutationResult
    ensures { result ≡ result_of true kind }
{
    match kind {
        ValueKind::Mutable => MutationResult::Mutate,
        ValueKind::Frozen => MutationResult::MutateFrozen,
        ValueKind::Primitive => MutationResult::None,
        ValueKind::MaybeFrozen => MutationResult::MutateFrozen,
        ValueKind::Global => MutationResult::MutateGlobal,
        ValueKind::Context => MutationResult::Mutate,
    }
}

// What a conditional mutation of a kind comes to.
// It is none where the value cannot be written.
fn conditional_result(kind: ValueKind) -> MutationResult
    ensures { result ≡ result_of false kind }
{
    match kind {
        ValueKind::Mutable => MutationResult::Mutate,
        ValueKind::Frozen => MutationResult::None,
        ValueKind::Primitive => MutationResult::None,
        ValueKind::MaybeFrozen => MutationResult::None,
        ValueKind::Global => MutationResult::None,
        ValueKind::Context => MutationResult::Mutate,
    }
}

// What a mutation of a kind comes to.
pub fn result_of(strict: bool, kind: ValueKind) -> MutationResult
    ensures { result ≡ result_of strict kind }
{
    if strict {
        return strict_result(kind);
    }
    conditional_result(kind)
}
