// The diagnostics of a context, a lent slice of structs: find an equal record. After intern_aliasing_diagnostic of the Rust.
#![tactic(auto)]

ghost use Rattle.std.specs.Prelude.{◌&&◌, ◌≡◌, eqb};
ghost use Rattle.def_transfer.specs.Diagnostics.{same_identity, same_labels};
ghost use Rattle.def_transfer.specs.Pure as Pure;
ghost use Rattle.def_transfer.specs.Pure.{identities};
ghost use Rattle.lent_context.specs.Lent as Lent;
ghost use Rattle.lent_context.specs.Lent.{diagnostics_in};
ghost use Rattle.lent_layout.specs.Context.{held, interned_of};

use def_effects::{Diagnostic, NO_SPAN};
use lent_layout::{Context, Numbered, UNUSED};
use lent_slices::get_or;

// Whether two diagnostics have one identity: identifier, message and help.
// The help of case 0 is the sentence, that of case 1 holds the name.
#[tactic(auto, unfolding(def_transfer::specs::Diagnostics::same_identity))]
pub fn same_identity(a: Diagnostic, b: Diagnostic) -> bool
    ensures { result ≡ same_identity a b }
{
    a.identifier == b.identifier
        && a.case == b.case
        && if a.case == 0 {
            a.sentence == b.sentence
        } else {
            a.name == b.name
        }
}

// Whether two diagnostics have the same labels, their texts too.
// A label's text holds the name.
#[tactic(auto, unfolding(def_transfer::specs::Diagnostics::same_labels, def_effects::specs::Places::eq_span))]
pub fn same_labels(a: Diagnostic, b: Diagnostic) -> bool
    ensures { result ≡ same_labels a b }
{
    a.access == b.access
        && a.own == b.own
        && (a.access == NO_SPAN && a.own == NO_SPAN || a.name == b.name)
}

// Record k of the diagnostics.
pub fn diagnostic_in(diagnostics: &[Numbered], k: u32) -> Numbered
    ensures { interned_of result ≡ Lent.diagnostic_in diagnostics.now k }
{
    get_or(diagnostics, k as usize, UNUSED)
}

// How many identities the first n diagnostics have: one more than the highest, 0 without diagnostics.
// Any numbers are read, so the answer is as wide as one more than a word needs.
pub fn identities_before(diagnostics: &[Numbered], n: u32) -> u64
    ensures { result ≡ identities (diagnostics_in diagnostics.now 0 n) }
{
    (0..n)
        .map(|k| diagnostic_in(diagnostics, k).identity as u64 + 1)
        .max()
        .unwrap_or(0)
}

// The identity of the first of n diagnostics with the same identifier, message and help.
pub fn identity_before(diagnostics: &[Numbered], n: u32, d: Diagnostic) -> Option<u32>
    ensures { result ≡ Pure.find_identity (diagnostics_in diagnostics.now 0 n) d }
{
    (0..n)
        .find(|&k| same_identity(d, diagnostic_in(diagnostics, k).diagnostic))
        .map(|k| diagnostic_in(diagnostics, k).identity)
}

// Whether a record has the identity and the labels of one that is sought.
pub fn is_instance(x: Numbered, sought: Numbered) -> bool
    ensures { result ≡ eqb sought.identity x.identity && same_labels sought.diagnostic x.diagnostic }
{
    sought.identity == x.identity && same_labels(sought.diagnostic, x.diagnostic)
}

// The place of the first of n records with the identity and the labels of one that is sought.
pub fn instance_before(diagnostics: &[Numbered], n: u32, sought: Numbered) -> Option<u32>
    ensures { result ≡ Pure.find_instance 0 (diagnostics_in diagnostics.now 0 n)
        sought.identity sought.diagnostic }
{
    (0..n).find(|&k| is_instance(diagnostic_in(diagnostics, k), sought))
}

// How many identities there are.
#[tactic(auto, unfolding(lent_context::specs::Lent::identity_count))]
pub fn identity_count(context: &Context) -> u64
    ensures { result ≡ Lent.identity_count (held context.now) }
{
    identities_before(context.diagnostics, context.diagnostic_count)
}

// The identity of the first diagnostic with the same identifier, message and help.
// This is the first look-up of intern_aliasing_diagnostic.
#[tactic(auto, unfolding(lent_context::specs::Lent::find_identity))]
pub fn find_identity(context: &Context, d: Diagnostic) -> Option<u32>
    ensures { result ≡ Lent.find_identity (held context.now) d }
{
    identity_before(context.diagnostics, context.diagnostic_count, d)
}

// The place of the first record with the identity and the labels of one that is sought.
// This is the second look-up of intern_aliasing_diagnostic.
#[tactic(auto, unfolding(lent_context::specs::Lent::find_instance))]
pub fn find_instance(context: &Context, sought: Numbered) -> Option<u32>
    ensures { result ≡ Lent.find_instance (held context.now) sought.identity sought.diagnostic }
{
    instance_before(context.diagnostics, context.diagnostic_count, sought)
}
