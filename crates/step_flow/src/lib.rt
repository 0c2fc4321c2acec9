// CMP and the jumps, CALL and RET, the dumps. `found` is what the lookup of the name answered, or None where none was made:
// a step asks for it before it comes here.
#![tactic(auto)]

pub mod calls;
pub mod dumps;
pub mod jumps;
