// The verifier: decodes and sweeps a package's code, and accepts the package or names the first check that it fails.
#![tactic(auto)]

mod body;
mod effect;
mod flow;
pub mod program;
mod site;
mod starts;
mod sweep;
mod worklist;
