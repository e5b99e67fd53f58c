// The candidates of an instruction, one after the other.
#![tactic(auto)]

ghost use Rattle.def_transfer.specs.Monad.{each};
ghost use Rattle.def_transfer.specs.Step as Step;
ghost use Rattle.lent_context.specs.Lent as Lent;
ghost use Rattle.lent_effects.specs.Records.{effect_in};
ghost use Rattle.lent_world.specs.Promise.{Kept, Does};
ghost use Rattle.lent_layout.specs.Layout.{candidate_table};

use def_refusals::Verdict;
use effect_apply::apply_effect;
use lent_effect_read::effect_in;
use lent_effects::copy_captures;
use lent_layout::{CANDIDATES, RUN_WORDS};
use lent_world::World;

// Candidate k goes through the step; its captures are copied to a slice first.
// The depth of derivation is 4.
pub fn candidate(world: &mut World, candidates: &[u32], k: u32) -> Verdict
    ensures kept { Kept world.old world.new }
    ensures does { Does (Step.apply_effect 4 (effect_in candidate_table candidates.now k)) world.old world.new
        result }
{
    let e = effect_in(CANDIDATES, candidates, k as usize);
    let mut captures = [0u32; RUN_WORDS];
    copy_captures(CANDIDATES, candidates, k as usize, &mut captures);
    apply_effect(world, 4, e, &captures)
}

// All candidates in order.
// The first that is refused ends it.
pub fn candidates_in_order(world: &mut World, candidates: &[u32], count: u32) -> Verdict
    ensures kept { Kept world.old world.new }
    ensures does { Does (each (Lent.effects_in candidate_table candidates.now 0 count) (Step.apply_effect 4))
        world.old world.new result }
{
    for k in 0..count {
        candidate(world, candidates, k)?;
    }
    Ok(())
}
