// The instructions on the data stack.
#![tactic(auto)]

pub mod cells;
