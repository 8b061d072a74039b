// Shapes in memory: the records of the verifier's table, what two become that meet, and what an instruction makes of one.
#![tactic(auto)]

pub mod act;
pub mod kinds;
pub mod shape;
pub mod table;
#[cfg(test)]
mod tests;
