// What the call for one instruction comes to, and demand 3 of it: definitions and laws in specs/, and the answer, which they speak of.
#![tactic(auto)]

use def_effects::Session;

// What the call answers where it is not refused: how many effects the output list holds, the entries of all Freezes of the instruction,
// the session, and the state's function-expression flag.
#[derive(Clone, Copy)]
pub struct Applied {
    pub count: u32,
    pub entries: u32,
    pub session: Session,
    pub flag: bool,
}
