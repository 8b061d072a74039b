// Runs a program given as hex text on standard input. The arguments are the sizes of its memory, its host, and the runs and looks
// that are asked for. Prints what each call answers, and what the host holds in the end.
#![tactic(auto)]

ghost use Rattle.verifier.specs.Checking.{Checked};

use arguments::{Asked, Chosen, USAGE, read_arguments};
use bytecode::refusal::Report;
use execution::Lent;
use heap::{BlockRecord, Cell};
use host::drive::Drive;
use host::line::Line;
use intake::{Failure, RECORDS, read_hex};
use machine::Machine;
use machine::sizes::allows;
use play::play;
use runtime::FrameRecord;
use shapes::table::blank_record;
use std::process::ExitCode;
use std::{env, io};
use verifier::program::{Program, check};

mod arguments;
mod play;

// The words of the drive host, signed. The tour tells two of them, in words of its own.
fn show_drive(rt: &HostRuntime, drive: &Drive) -> io::Result<()> {
    print!(rt; "drive")?;
    for word in drive.words() {
        print!(rt; " {}", word.cast_signed())?;
    }
    println!(rt)
}

// The bytes that the line host has written.
fn show_line(rt: &HostRuntime, line: &Line<'_>) -> io::Result<()> {
    print!(rt; "line")?;
    if line.written().len() > 0 {
        print!(rt; " ")?;
    }
    for byte in line.written() {
        print!(rt; "{byte:02X}")?;
    }
    println!(rt)
}

// Starts an accepted program, and makes the calls with the host that was chosen.
fn start(rt: &HostRuntime, program: Program<'_>, asked: &Asked) -> Result<(), Failure>
    requires { Checked program }
{
    let sizes = asked.sizes;
    if let Err(refused) = allows(&program, sizes) {
        return Err(Failure::Refused(Report::from(refused)));
    }
    // The tour has these four lines too: a function would answer the four and the memory that borrows from them.
    let mut slots = vec![in rt.alloc(); 0u64; sizes.slots]?;
    let mut frames = vec![in rt.alloc(); FrameRecord::default(); sizes.frames]?;
    let mut cells = vec![in rt.alloc(); Cell::default(); sizes.cells]?;
    let mut records = vec![in rt.alloc(); BlockRecord::default(); sizes.records]?;
    let memory = Lent {
        slots: &mut slots,
        frames: &mut frames,
        cells: &mut cells,
        records: &mut records,
    };
    let mut machine = Machine::start(program, memory);
    println!(rt; "started")?;
    match asked.host {
        Chosen::Drive => {
            let mut drive = Drive::new();
            play(rt, &mut machine, &mut drive, &asked.requests)?;
            show_drive(rt, &drive)?;
        }
        Chosen::Line(size) => {
            let mut room = vec![in rt.alloc(); 0u8; size]?;
            let mut line = Line::new(&mut room);
            play(rt, &mut machine, &mut line, &asked.requests)?;
            show_line(rt, &line)?;
        }
    }
    Ok(())
}

// Loads and checks the text on standard input, and starts what is accepted. What is accepted borrows from the bytes, so each program
// checks in its own lines.
fn load_and_start(rt: &HostRuntime, asked: &Asked) -> Result<(), Failure> {
    let bytes = read_hex(rt)?;
    let mut table = vec![in rt.alloc(); blank_record(); RECORDS]?;
    let accepted = check(&bytes, &mut table)?;
    start(rt, accepted.program, asked)
}

fn main(rt: HostRuntime) -> io::Result<ExitCode> {
    let Some(asked) = read_arguments(rt.alloc(), env::args(&rt)?) else {
        eprintln!(rt; "{USAGE}")?;
        return Ok(ExitCode::FAILURE);
    };
    load_and_start(&rt, &asked).or_else(|failure| failure.print(&rt))?;
    Ok(ExitCode::SUCCESS)
}
