// The parts of an instruction over lent tables: the early errors of its own function, its candidates in order, the lvalue. After apply_signature
// of the Rust; `run_instruction` puts them together. The call, with isolation in its promise, is `call_apply::apply_signature`.
#![tactic(auto)]

ghost use Rattle.def_transfer.specs.Instruction as Instruction;
ghost use Rattle.call_parts.specs.Instructions.{instruction_of};
ghost use Rattle.lent_world.specs.Promise.{Kept, Does};

use call_candidates::candidates_in_order;
use call_early::early_errors;
use call_parts::{define_lvalue, keep_entries};
use def_effects::Place;
use def_refusals::Verdict;
use lent_world::World;

// ---- the whole run

// The run of an instruction: the early errors of its own function, its candidates in order, the lvalue, the entries kept.
// Where it is refused the tables are as the refused step left them: the call, `call_apply::apply_signature`, puts them back.
pub fn run_instruction(
    world: &mut World,
    candidates: &[u32],
    count: u32,
    lvalue: Place,
    own: u32,
) -> Verdict
    ensures kept { Kept world.old world.new }
    ensures does { Does (Instruction.run (instruction_of candidates.now count lvalue own)) world.old world.new
        result }
{
    early_errors(world, own)?;
    candidates_in_order(world, candidates, count)?;
    define_lvalue(world, lvalue.identifier);
    keep_entries(world);
    Ok(())
}
