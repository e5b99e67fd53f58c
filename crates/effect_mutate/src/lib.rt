// Mutations: what comes next, by the result of the mutation, with the diagnostic of one that is an error. After the arms for them of the Rust.
#![tactic(auto)]

ghost use Rattle.std.specs.Prelude.{◌≡◌, List, ℕ};
ghost use Rattle.def_effects.specs.declared.Place.{Place as APlace};
ghost use Rattle.def_effects.specs.Effects.{AliasingEffect as Effect};
ghost use Rattle.def_transfer.specs.Monad.{M, Done};
ghost use Rattle.def_transfer.specs.Step as Step;
ghost use Rattle.def_transfer.specs.Tables.{World as AWorld};
ghost use Rattle.effect_acts.specs.Acts.{follow};
ghost use Rattle.effect_parts.specs.Parts.{listing, among};
ghost use Rattle.laws_monad.specs.Answers.{answers};
ghost use Rattle.lent_world.specs.Promise.{seen, Kept, Unwritten};
ghost use Rattle.lent_world.specs.World.{lent};

use def_effects::{MutateVariant, MutationResult, Place, is_strict, result_of};
use def_kinds::AbstractValue;
use def_refusals::Refusal;
use effect_acts::Next;
use effect_diagnostic::intern_diagnostic;
use effect_parts::{kind, kind_with_span};
use effect_reports::{hoisted_diagnostic, modified_diagnostic};
use lent_context::{access_span, is_hoisted, is_ref, name_of};
use lent_effects::AliasingEffect;
use lent_world::World;

// A value that cannot be modified is reported: a MutateFrozen is derived where it is Frozen, else a MutateGlobal.
// 10 refuses a 257th diagnostic or instance. The context alone is looked at: it is the same among any values, sets and output list.
pub fn report_modified(world: &mut World, p: Place, a: AbstractValue) -> Result<Next, Refusal>
    ensures kept { Kept world.old world.new }
    ensures unwritten { Unwritten world.old world.new }
    ensures does { (again : Effect → M (AWorld lent) Done) (e : Effect) (cs : List APlace)
        → Step.report_modified again p a (seen world.old)
        ≡ answers result (λ next. follow again e cs next (seen world.new)) (seen world.new) }
    ensures elsewhere { (again : Effect → M (AWorld lent) Done) (e : Effect) (cs : List APlace) (vs ss os : List ℕ)
        → Step.report_modified again p a (among vs ss os world.old)
        ≡ answers result (λ next. follow again e cs next (among vs ss os world.new)) (among vs ss os world.new) }
{
    let context = &mut *world.context;
    let name = name_of(context, p.identifier);
    let error = intern_diagnostic(world, modified_diagnostic(p, name, a))?;
    if a.kind.is_frozen() {
        return Ok(Next::Derived(AliasingEffect::MutateFrozen { place: p, error }));
    }
    Ok(Next::Derived(AliasingEffect::MutateGlobal { place: p, error }))
}

// An access before the declaration is reported: a MutateFrozen is derived.
// 10 refuses a 257th diagnostic or instance. The context alone is looked at: it is the same among any values, sets and output list.
pub fn report_hoisted(world: &mut World, p: Place) -> Result<Next, Refusal>
    ensures kept { Kept world.old world.new }
    ensures unwritten { Unwritten world.old world.new }
    ensures does { (again : Effect → M (AWorld lent) Done) (e : Effect) (cs : List APlace)
        → Step.report_hoisted again p (seen world.old)
        ≡ answers result (λ next. follow again e cs next (seen world.new)) (seen world.new) }
    ensures elsewhere { (again : Effect → M (AWorld lent) Done) (e : Effect) (cs : List APlace) (vs ss os : List ℕ)
        → Step.report_hoisted again p (among vs ss os world.old)
        ≡ answers result (λ next. follow again e cs next (among vs ss os world.new)) (among vs ss os world.new) }
{
    let context = &mut *world.context;
    let name = name_of(context, p.identifier);
    let access = access_span(context, p.identifier);
    let error = intern_diagnostic(world, hoisted_diagnostic(p, name, access))?;
    Ok(Next::Derived(AliasingEffect::MutateFrozen { place: p, error }))
}

// What a mutation lists, by its result.
// Hoisted matters for Frozen and MaybeFrozen only. The output list is not looked at: it is the same over any other.
pub fn report_result(world: &mut World, p: Place, res: MutationResult) -> Result<Next, Refusal>
    ensures kept { Kept world.old world.new }
    ensures unwritten { Unwritten world.old world.new }
    ensures does { (again : Effect → M (AWorld lent) Done) (e : Effect) (cs : List APlace)
        → Step.report again e p res (seen world.old)
        ≡ answers result (λ next. follow again e cs next (seen world.new)) (seen world.new) }
    ensures elsewhere { (again : Effect → M (AWorld lent) Done) (e : Effect) (cs : List APlace) (os : List ℕ)
        → Step.report again e p res (listing os world.old)
        ≡ answers result (λ next. follow again e cs next (listing os world.new)) (listing os world.new) }
{
    match res {
        MutationResult::None | MutationResult::MutateRef => Ok(Next::Nothing),
        MutationResult::Mutate => Ok(Next::Itself),
        MutationResult::MutateGlobal => {
            let a = kind(world, p.identifier);
            report_modified(world, p, a)
        }
        MutationResult::MutateFrozen => {
            let a = kind(world, p.identifier);
            let context = &mut *world.context;
            if is_hoisted(context, p.identifier) {
                return report_hoisted(world, p);
            }
            report_modified(world, p, a)
        }
    }
}

// A mutation of a place: its result, and what it lists.
// A ref is not looked at further, and no access is recorded for it. Nor is the output list: it is the same over any other.
pub fn mutation(world: &mut World, variant: MutateVariant, p: Place) -> Result<Next, Refusal>
    ensures kept { Kept world.old world.new }
    ensures unwritten { Unwritten world.old world.new }
    ensures does { (again : Effect → M (AWorld lent) Done) (e : Effect) (cs : List APlace)
        → Step.mutating again variant e p (seen world.old)
        ≡ answers result (λ next. follow again e cs next (seen world.new)) (seen world.new) }
    ensures elsewhere { (again : Effect → M (AWorld lent) Done) (e : Effect) (cs : List APlace) (os : List ℕ)
        → Step.mutating again variant e p (listing os world.old)
        ≡ answers result (λ next. follow again e cs next (listing os world.new)) (listing os world.new) }
{
    let context = &mut *world.context;
    if is_ref(context, p.identifier) {
        return Ok(Next::Nothing);
    }
    let a = kind_with_span(world, p.identifier, p.span);
    report_result(world, p, result_of(is_strict(variant), a.kind))
}
