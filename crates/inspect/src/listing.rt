// What a package holds, line by line: pools, functions with their instructions, natives, and the kinds of the sheet.
use crate::dump;
use bytecode::instruction::decode;
use reader::package::{Package, Signature};
use std::io;

// The runtime goes beside what is printed: no value here is more than shown.

// The instructions of a code in order; the listing ends where one is unknown or cut. Each says how far the next is, so no range counts them.
fn instructions(rt: &HostRuntime, code: &[u8]) -> io::Result<()> {
    let mut place = 0;
    while place < code.len() {
        let Some(instruction) = decode(code, place) else {
            return println!(rt; "  {place} unknown or cut");
        };
        println!(rt; "  {place} {instruction}")?;
        place += instruction.size();
    }
    Ok(())
}

fn integers(rt: &HostRuntime, package: &Package) -> io::Result<()> {
    println!(rt; "integers {}", package.integers.len())?;
    // By number: what an integer is, and what the kinds below are, the reader's clauses say of its methods.
    for i in 0..package.integers.len() {
        let integer = package.integer(i).cast_signed();
        println!(rt; "  {i} {integer}")?;
    }
    Ok(())
}

// The kinds of the arguments and of the result.
fn kinds(rt: &HostRuntime, signature: &Signature) -> io::Result<()> {
    let count = signature.argument_count();
    if count == 0 {
        print!(rt; ".")?;
    }
    for argument in 0..count {
        print!(rt; "{}", signature.argument_kind(argument))?;
    }
    println!(rt; " -> {}", signature.result_kind())
}

fn functions(rt: &HostRuntime, package: &Package) -> io::Result<()> {
    println!(rt; "functions {}", package.function_count())?;
    // By number, which is printed.
    for f in 0..package.function_count() {
        let variables = package.variables(f);
        let code = package.code(f);
        print!(rt;
            "function {f} of {variables} variables and {} code bytes: ",
            code.len()
        )?;
        kinds(rt, &package.signature(f))?;
        instructions(rt, code)?;
    }
    Ok(())
}

// Natives have an index and no code, so they have lines of their own.
fn natives(rt: &HostRuntime, package: &Package) -> io::Result<()> {
    println!(rt; "natives {}", package.native_count())?;
    // By number, which is printed.
    for n in 0..package.native_count() {
        print!(rt; "native {n} of index {}: ", package.native_index(n))?;
        kinds(rt, &package.native_signature(n))?;
    }
    Ok(())
}

// The whole package.
pub fn list(rt: &HostRuntime, package: &Package) -> io::Result<()> {
    integers(rt, package)?;
    let strings = package.string_bytes();
    println!(rt; "string bytes {}", strings.len())?;
    dump(rt, strings)?;
    functions(rt, package)?;
    natives(rt, package)
}
