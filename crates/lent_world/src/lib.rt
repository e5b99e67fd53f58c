// The definition's tables as they are lent, and the world that the parts of an instruction work in. specs/ has the world that contracts speak of, and that its tables are lawful.
#![tactic(auto)]

use lent_layout::Context;
use lent_work::Run;

// The world of an instruction under way: values and sets of the state, context and output list as the host lends them, and what goes by value.
// Each part of an instruction takes it, does one thing of the definition to it, and leaves it to the next.
#[derive(Drop)]
pub struct World<'a, 'b> {
    pub values: &'a mut [u64],
    pub sets: &'a mut [u64],
    pub context: &'a mut Context<'b>,
    pub output: &'a mut [u32],
    pub run: Run,
}
