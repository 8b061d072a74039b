// Cases of check: prints the verdict on each line of standard input, a package in hex text, for a table of 4,096 records and for
// one of 8. After a refusal the table has to be blank.
#![tactic(auto)]

use bytecode::refusal::{Refusal, Report};
use intake::{Failure, RECORDS, hex_bytes};
use shapes::table::{ShapeRecord, blank_record};
use std::io;
use std::io::{BufRead, BufReader};
use verifier::program::{Accepted, check};

const FEW_RECORDS: usize = 8;

fn print_verdict(
    rt: &HostRuntime,
    answer: Result<Accepted<'_>, Refusal>,
    table: &[ShapeRecord],
) -> io::Result<()> {
    match answer {
        Ok(accepted) => {
            let bytes = accepted.program.bytes().len();
            let functions = accepted.program.function_count();
            print!(rt; "accepted {bytes} {functions} {}", accepted.takes)
        }
        Err(refusal) => {
            print!(rt; "refused {}", Report::from(refusal))?;
            if table.iter().any(|record| *record != blank_record()) {
                print!(rt; " and the table is not blank")?;
            }
            Ok(())
        }
    }
}

// The verdicts on a package in hex text: for the whole table, and for its first few records.
fn run_case(rt: &HostRuntime, text: &[u8], table: &mut [ShapeRecord]) -> Result<(), Failure> {
    let bytes = hex_bytes(rt.alloc(), text)?;
    print_verdict(rt, check(&bytes, table), table)?;
    print!(rt; "; ")?;
    let few = FEW_RECORDS.min(table.len());
    let table = &mut table[..few];
    print_verdict(rt, check(&bytes, table), table)?;
    println!(rt)?;
    Ok(())
}

fn main(rt: HostRuntime) -> io::Result<()> {
    let mut table = vec![in rt.alloc(); blank_record(); RECORDS]?;
    for line in BufReader::new(rt.alloc(), rt.stdin())?.lines(rt.alloc()) {
        run_case(&rt, line?.as_bytes(), &mut table).or_else(|failure| failure.print(&rt))?;
    }
    Ok(())
}
