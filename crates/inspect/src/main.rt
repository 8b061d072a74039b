// Loads hex text from standard input, and prints how many bytes there are, a dump of them, and what the package holds that they are;
// or why there is none.
#![tactic(auto)]

use intake::{Failure, read_hex};
use listing::list;
use reader::read_package;
use std::io;

mod listing;

// One line for 16 bytes: the offset of the first, then the bytes.
fn dump(rt: &HostRuntime, bytes: &[u8]) -> io::Result<()> {
    for (n, line) in bytes.chunks(16).enumerate() {
        print!(rt; "{n:03x}0 ")?;
        for byte in line {
            print!(rt; " {byte:02x}")?;
        }
        println!(rt)?;
    }
    Ok(())
}

fn inspect(rt: &HostRuntime) -> Result<(), Failure> {
    let bytes = read_hex(rt)?;
    println!(rt; "loaded {}", bytes.len())?;
    dump(rt, &bytes)?;
    let package = read_package(&bytes)?;
    list(rt, &package)?;
    Ok(())
}

fn main(rt: HostRuntime) -> io::Result<()> {
    inspect(&rt).or_else(|failure| failure.print(&rt))
}
