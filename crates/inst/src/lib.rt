// One instruction (mm's inst.rs): its record, the operand's form of a first byte, the check of a name and the well-formed record.
#![tactic(auto)]

mod forms;
pub mod ops;
mod records;

pub use forms::Form;
pub use records::{is_well_formed, name, name_in, name_ok, part, same_name};

// An instruction record: the first byte, the cell, number or stream, and where in the image the name stands.
// What an instruction does not use is 0.
#[derive(Clone, Copy)]
pub struct Inst {
    pub typ: u64,
    pub val: u64,
    pub start: u64,
    pub len: u64,
}
