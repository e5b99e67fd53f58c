// The effects that derive no other: Freeze, Create, ImmutableCapture, and those that are only listed. After apply_effect of the Rust.
#![tactic(auto)]

ghost use Rattle.std.specs.Prelude.{◌≡◌, []};
ghost use Rattle.def_effects.specs.Effects.{AliasingEffect as Effect};
ghost use Rattle.def_transfer.specs.Monad.{M, Done};
ghost use Rattle.def_transfer.specs.Tables.{World as Worlds};
ghost use Rattle.def_transfer.specs.Step.{act};
ghost use Rattle.lent_effects.specs.Records.{effect_with};
ghost use Rattle.lent_world.specs.World.{lent};
ghost use Rattle.effect_acts.specs.Acts.{act_of};
ghost use Rattle.effect_acts.specs.declared.Act.TheVariants as Acts;
ghost use Rattle.lent_world.specs.Promise.{Kept, Does};

use def_refusals::Verdict;
use effect_assign::capturing_immutably;
use effect_create::creating;
use effect_freeze::freezing;
use effect_parts::emit;
use lent_effects::AliasingEffect;
use lent_world::World;

// The step of an effect that derives no other, once it was interned.
pub fn plain(world: &mut World, e: AliasingEffect) -> Verdict
    ensures kept { Kept world.old world.new }
    ensures does { Acts.Plain ≡ act_of e
        → (again : Effect → M (Worlds lent) Done)
        → Does (act again (effect_with e [])) world.old world.new result }
{
    match e {
        AliasingEffect::Freeze { place, reason } => freezing(world, place, reason),
        AliasingEffect::Create { into, kind, reason } => creating(world, into, kind, reason),
        AliasingEffect::ImmutableCapture { from, into } => {
            capturing_immutably(world, from, into);
            Ok(())
        }
        AliasingEffect::MutateFrozen { .. }
        | AliasingEffect::MutateGlobal { .. }
        | AliasingEffect::Impure { .. }
        | AliasingEffect::Render { .. } => {
            emit(world, e, &[]);
            Ok(())
        }
        _ => Ok(()),
    }
}
