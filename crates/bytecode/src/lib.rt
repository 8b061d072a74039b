// C0 bytecode: kinds of values, instructions and how they are decoded, why a package is refused and why a program stops.
#![tactic(auto)]

pub mod instruction;
pub mod kind;
pub mod refusal;
pub mod stop;
