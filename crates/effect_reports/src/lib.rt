// What a write that is not allowed is reported as: the sentence of its reason, and the label of a write before the declaration.
#![tactic(auto)]

ghost use Rattle.std.specs.Prelude.{◌≡◌};
ghost use Rattle.def_kinds.specs.Reasons as Reasons;
ghost use Rattle.def_transfer.specs.Step.{modified, hoisted_access};
ghost use Rattle.effect_reports.specs.Mutations.{access_label};

use def_effects::{Diagnostic, NO_SPAN, Place, Span};
use def_kinds::{AbstractValue, has_reason};

// The reasons that get_write_error_reason asks for, in turn.
// Global, JsxCaptured, Context, KnownReturnSignature, ReactiveFunctionArgument, State, ReducerState, Effect, HookCaptured, HookReturn.
const IN_SENTENCE_ORDER: [u32; 10] = [7, 8, 3, 0, 10, 1, 2, 4, 5, 6];

// The number of the sentence that says why a value cannot be written: the first of these reasons that it has; 10 for none.
pub fn get_write_error_reason(s: u32) -> u32
    ensures { result ≡ Reasons.get_write_error_reason s }
{
    let k = IN_SENTENCE_ORDER
        .iter()
        .position(|&r| has_reason(s, r))
        .unwrap_or(10);
    k as u32
}

// The diagnostic of a value that cannot be modified: message case 0, its one label the place's own span.
// The sentence goes by the joined reasons.
pub fn modified_diagnostic(p: Place, name: u32, a: AbstractValue) -> Diagnostic
    ensures { result ≡ modified p name a }
{
    let own = p.span;
    Diagnostic {
        identifier: p.identifier,
        case: 0,
        sentence: get_write_error_reason(a.reason),
        name,
        access: NO_SPAN,
        own,
    }
}

// The access span as a label: none where it equals the place's own.
#[tactic(auto, unfolding(def_effects::specs::Places::eq_span))]
fn access_label(access: Span, own: Span) -> Span
    ensures { result ≡ access_label access own }
{
    if access == own { NO_SPAN } else { access }
}

// The diagnostic of an access before the declaration: message case 1, sentence 0.
// Its labels are the access span, unless it equals the place's, then the place's.
pub fn hoisted_diagnostic(p: Place, name: u32, access: Span) -> Diagnostic
    ensures { result ≡ hoisted_access p name access }
{
    let own = p.span;
    let label = access_label(access, own);
    Diagnostic {
        identifier: p.identifier,
        case: 1,
        sentence: 0,
        name,
        access: label,
        own,
    }
}
