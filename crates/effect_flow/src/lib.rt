// Capture, Alias and MaybeAlias: what comes next, by the kinds of destination and source. After the arms for them of the Rust.
#![tactic(auto)]

ghost use Rattle.std.specs.Prelude.{◌≡◌, List, ℕ};
ghost use Rattle.def_effects.specs.declared.Place.{Place as APlace};
ghost use Rattle.def_effects.specs.Effects.{AliasingEffect as Effect, ImmutableCapture, MaybeAlias};
ghost use Rattle.def_transfer.specs.Monad.{M, Done};
ghost use Rattle.def_transfer.specs.Tables.{World as AWorld};
ghost use Rattle.def_transfer.specs.Context.{emit};
ghost use Rattle.def_transfer.specs.Step as Step;
ghost use Rattle.def_transfer.specs.Step.{by_flow, flow_of, destination_of, source_of};
ghost use Rattle.effect_acts.specs.Acts.{follow};
ghost use Rattle.effect_flow.specs.Flows.{flows};
ghost use Rattle.effect_parts.specs.Parts.{beside};
ghost use Rattle.laws_monad.specs.Answers.{answers};
ghost use Rattle.lent_layout.specs.Context.{ContextWords};
ghost use Rattle.lent_world.specs.Promise.{seen, Kept, Untouched};
ghost use Rattle.lent_world.specs.World.{lent};

use def_effects::Place;
use def_kinds::ValueKind;
use def_refusals::Refusal;
use effect_acts::{FlowKind, Next};
use effect_parts::kind_with_span;
use lent_effects::AliasingEffect;
use lent_work::is_marked;
use lent_world::World;

// What a flow between two places comes to, by the kinds of destination and source; a MaybeAlias asks only for the source.
// Frozen: an ImmutableCapture; mutable into mutable: the effect itself; by way of a context: a MaybeAlias; else nothing.
pub fn flow_next(
    maybe: bool,
    destination: ValueKind,
    source: ValueKind,
    from: Place,
    into: Place,
) -> Next
    ensures { (again : Effect → M (AWorld lent) Done) (e : Effect) (cs : List APlace) (w : AWorld lent)
        → by_flow (flow_of maybe (destination_of destination) (source_of source))
        (again (ImmutableCapture from into)) (emit e) (again (MaybeAlias from into)) w
        ≡ follow again e cs result w }
{
    if let ValueKind::Frozen | ValueKind::MaybeFrozen = source {
        return Next::Derived(AliasingEffect::ImmutableCapture { from, into });
    }
    if maybe {
        return Next::Itself;
    }
    match source {
        ValueKind::Mutable => match destination {
            ValueKind::Mutable | ValueKind::MaybeFrozen => Next::Itself,
            ValueKind::Context => Next::Derived(AliasingEffect::MaybeAlias { from, into }),
            _ => Next::Nothing,
        },
        ValueKind::Context => match destination {
            ValueKind::Mutable | ValueKind::MaybeFrozen | ValueKind::Context => {
                Next::Derived(AliasingEffect::MaybeAlias { from, into })
            }
            _ => Next::Nothing,
        },
        _ => Next::Nothing,
    }
}

// The destination's kind, then the source's, each with its span; what comes next.
// Context and output list are not looked at: it is the same beside any others.
fn flowing(world: &mut World, maybe: bool, from: Place, into: Place) -> Next
    ensures kept { Kept world.old world.new }
    ensures untouched { Untouched world.old world.new }
    ensures does { (again : Effect → M (AWorld lent) Done) (e : Effect) (cs : List APlace)
        → Step.flowing again maybe e from into (seen world.old)
        ≡ follow again e cs result (seen world.new) }
    ensures elsewhere { (again : Effect → M (AWorld lent) Done) (e : Effect) (cs : List APlace) (c : ContextWords)
        (os : List ℕ) → Step.flowing again maybe e from into (beside c os world.old)
        ≡ follow again e cs result (beside c os world.new) }
{
    let destination = kind_with_span(world, into.identifier, into.span);
    let source = kind_with_span(world, from.identifier, from.span);
    flow_next(maybe, destination.kind, source.kind, from, into)
}

// A flow between two places.
// An Alias into a place that was not initialized in this instruction is refused with 7, also one that flows like a MaybeAlias.
// Capture and MaybeAlias ask nothing.
// Context and output list are not looked at: it is the same beside any others.
pub fn flow(world: &mut World, kind: FlowKind, from: Place, into: Place) -> Result<Next, Refusal>
    ensures kept { Kept world.old world.new }
    ensures untouched { Untouched world.old world.new }
    ensures does { (again : Effect → M (AWorld lent) Done) (e : Effect) (cs : List APlace)
        → flows again kind e from into (seen world.old)
        ≡ answers result (λ next. follow again e cs next (seen world.new)) (seen world.new) }
    ensures elsewhere { (again : Effect → M (AWorld lent) Done) (e : Effect) (cs : List APlace) (c : ContextWords)
        (os : List ℕ) → flows again kind e from into (beside c os world.old)
        ≡ answers result (λ next. follow again e cs next (beside c os world.new)) (beside c os world.new) }
{
    match kind {
        FlowKind::Capture => Ok(flowing(world, false, from, into)),
        FlowKind::MaybeAlias => Ok(flowing(world, true, from, into)),
        FlowKind::Alias => {
            if !is_marked(world.run.marks, into.identifier) {
                return Err(Refusal::NotBegun);
            }
            Ok(flowing(world, false, from, into))
        }
        FlowKind::AliasAsMaybe => {
            if !is_marked(world.run.marks, into.identifier) {
                return Err(Refusal::NotBegun);
            }
            Ok(flowing(world, true, from, into))
        }
    }
}
