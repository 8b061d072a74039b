// Checks a package given as hex text on standard input, and prints its verdict: `accepted` with the numbers of bytes, functions and
// takes, or `refused` with the number of the check that failed and its place.
#![tactic(auto)]

use intake::{Failure, RECORDS, read_hex};
use shapes::table::blank_record;
use std::io;
use verifier::program::check;

// What is accepted borrows from the bytes, so each program checks in its own lines.
fn judge(rt: &HostRuntime) -> Result<(), Failure> {
    let bytes = read_hex(rt)?;
    let mut table = vec![in rt.alloc(); blank_record(); RECORDS]?;
    let accepted = check(&bytes, &mut table)?;
    let functions = accepted.program.function_count();
    println!(rt; "accepted {} {functions} {}", bytes.len(), accepted.takes)?;
    Ok(())
}

fn main(rt: HostRuntime) -> io::Result<()> {
    judge(&rt).or_else(|failure| failure.print(&rt))
}
