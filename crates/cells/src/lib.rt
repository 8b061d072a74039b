// The machine's memory over lent cells and block records, and the memory instructions.
#![tactic(auto)]

pub mod content;
pub mod memory;
