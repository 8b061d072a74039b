// Checks a package given as hex text on standard input, and prints the shape of each start that has one: its function and place,
// the kinds on the stack from the bottom up and of each variable (w word, a reference, - none; a dot where there are none).
// A package that is not accepted is refused as by `verdict`.
#![tactic(auto)]

use bytecode::kind::Kind;
use intake::{Failure, RECORDS, read_hex};
use shapes::table::{ShapeMark, ShapeRecord, blank_record};
use std::io;
use verifier::program::{Program, check};

// The first kinds of a record, in which both lists are arrays.
fn print_kinds(rt: &HostRuntime, kinds: &[Kind; 32], count: usize) -> io::Result<()> {
    if count == 0 {
        return print!(rt; " .");
    }
    print!(rt; " ")?;
    for kind in kinds.iter().take(count) {
        print!(rt; "{kind}")?;
    }
    Ok(())
}

fn print_plan(
    rt: &HostRuntime,
    function: usize,
    variables: usize,
    records: &[ShapeRecord],
) -> io::Result<()> {
    for (place, record) in records.iter().enumerate() {
        if record.mark == ShapeMark::Shaped {
            print!(rt; "{function} {place}")?;
            print_kinds(rt, &record.stack, record.depth)?;
            print_kinds(rt, &record.variables, variables)?;
            println!(rt)?;
        }
    }
    Ok(())
}

fn print_plans(rt: &HostRuntime, program: &Program, table: &[ShapeRecord]) -> io::Result<()> {
    let contents = program.contents();
    let mut rest = table;
    // By number, which is printed.
    for function in 0..contents.function_count() {
        let size = contents.code(function).len().min(rest.len());
        print_plan(rt, function, contents.variables(function), &rest[0..size])?;
        rest = &rest[size..];
    }
    Ok(())
}

// What is accepted borrows from the bytes, so each program checks in its own lines.
fn judge(rt: &HostRuntime) -> Result<(), Failure> {
    let bytes = read_hex(rt)?;
    let mut table = vec![in rt.alloc(); blank_record(); RECORDS]?;
    let accepted = check(&bytes, &mut table)?;
    print_plans(rt, &accepted.program, &table)?;
    Ok(())
}

fn main(rt: HostRuntime) -> io::Result<()> {
    judge(&rt).or_else(|failure| failure.print(&rt))
}
