// One program, from its text to the end of its last run.
ghost use Rattle.verifier.specs.Checking.{Checked};

use bytecode::refusal::Report;
use execution::Lent;
use heap::{BlockRecord, Cell};
use host::drive::Drive;
use machine::sizes::{Sizes, allows};
use machine::{Machine, NoFrame, Outcome, Over, SizesRefused};
use runtime::FrameRecord;
use shapes::table::{ShapeMark, ShapeRecord, blank_record};
use source::hex::HexText;
use source::loader::load;
use std::io;
use verifier::program::{Program, check};

// How many values are on the stack at each place.
fn show_plans(rt: &HostRuntime, table: &[ShapeRecord]) -> io::Result<()> {
    print!(rt; "  Values on the stack at each instruction:")?;
    for record in table {
        if let ShapeMark::Shaped = record.mark {
            print!(rt; " {}", record.depth)?;
        }
    }
    println!(rt)?;
    println!(rt;
        "  Promised: these are the fullest plans; at run time every stack is as they say, and nothing breaks."
    )
}

fn show_outcome(rt: &HostRuntime, outcome: Outcome) -> io::Result<()> {
    match outcome {
        Outcome::Continues { steps } => println!(rt; "  It goes on after {steps} steps."),
        Outcome::Ended { word, steps } => {
            println!(rt;
                "  It ended with {} after {steps} steps.",
                word.cast_signed()
            )?;
            println!(rt;
                "  Promised: with more memory, or in other slices, it would have come to this same end."
            )
        }
        Outcome::Stopped {
            stop,
            function,
            place,
            steps,
        } => {
            let number = stop.number();
            println!(rt;
                "  It stopped with {number} in function {function} at {place} after {steps} steps."
            )?;
            println!(rt;
                "  Promised: a stop leaves everything as it was before its instruction, and frames can still be seen."
            )
        }
    }
}

fn show_drive(rt: &HostRuntime, drive: &Drive) -> io::Result<()> {
    print!(rt; "  The drive's words 0 and 1:")?;
    for word in drive.words().iter().take(2) {
        print!(rt; " {}", word.cast_signed())?;
    }
    println!(rt)
}

// A run, and a look at the newest frame.
fn slice(
    rt: &HostRuntime,
    machine: &mut Machine<'_, '_>,
    drive: &mut Drive,
    allowance: u32,
) -> io::Result<()> {
    println!(rt; "run, {allowance} steps at most:")?;
    match machine.run(drive, allowance) {
        Ok(outcome) => show_outcome(rt, outcome)?,
        Err(Over) => println!(rt; "  Refused with 32: it is over. Nothing changed.")?,
    }
    match machine.look(0) {
        Ok(view) => println!(rt;
            "  Its newest frame: function {}, place {}, {} on the stack.",
            view.function, view.place, view.depth
        )?,
        Err(NoFrame) => println!(rt; "  It has no frame any more.")?,
    }
    show_drive(rt, drive)
}

// All slices in their order.
fn serve(rt: &HostRuntime, machine: &mut Machine<'_, '_>, slices: &[u32]) -> io::Result<()> {
    let mut drive = Drive::new();
    for allowance in slices {
        slice(rt, machine, &mut drive, *allowance)?;
    }
    Ok(())
}

// Starts an accepted program, and runs it.
fn run(rt: &HostRuntime, program: Program<'_>, sizes: Sizes, slices: &[u32]) -> io::Result<()>
    requires { Checked program }
{
    if let Err(SizesRefused) = allows(&program, sizes) {
        return println!(rt; "Its memory is refused with 30.");
    }
    // The tour shows what a builder writes, so it makes the memory here, in the same four lines as `console`.
    let mut slots = vec![in rt.alloc(); 0u64; sizes.slots]?;
    let mut frames = vec![in rt.alloc(); FrameRecord::default(); sizes.frames]?;
    let mut cells = vec![in rt.alloc(); Cell::default(); sizes.cells]?;
    let mut records = vec![in rt.alloc(); BlockRecord::default(); sizes.records]?;
    let memory = Lent {
        slots: &mut slots,
        frames: &mut frames,
        cells: &mut cells,
        records: &mut records,
    };
    let mut machine = Machine::start(program, memory);
    println!(rt;
        "start, over {} slots, {} frames, {} cells and {} block records:",
        sizes.slots, sizes.frames, sizes.cells, sizes.records
    )?;
    println!(rt;
        "  Promised: whatever runs and looks follow, it touches nothing but this memory, and the host through its natives."
    )?;
    serve(rt, &mut machine, slices)
}

/// Loads, judges and runs a program, a run for each slice of steps.
pub fn visit(rt: &HostRuntime, text: &str, slices: &[u32]) -> io::Result<()> {
    // The buffer is lent to load itself, as the tour tells what a refusal leaves in it.
    let mut buffer = vec![in rt.alloc(); 0u8; 256]?;
    match load(&mut HexText::new(text.as_bytes()), &mut buffer) {
        Ok(count) => {
            println!(rt; "load: {count} bytes.")?;
            buffer.truncate(count);
        }
        Err(_) => return println!(rt; "load: refused, and the buffer is zero."),
    }
    let mut table = vec![in rt.alloc(); blank_record(); 64]?;
    match check(&buffer, &mut table) {
        Ok(accepted) => {
            println!(rt;
                "check: accepted, after {} takes of the sweep.",
                accepted.takes
            )?;
            show_plans(rt, &table)?;
            let sizes = Sizes {
                slots: 100,
                frames: 4,
                cells: 16,
                records: 4,
            };
            run(rt, accepted.program, sizes, slices)
        }
        Err(refusal) => {
            let Report {
                number,
                first: function,
                second: place,
            } = Report::from(refusal);
            println!(rt; "check: refused with {number} in function {function} at {place}.")?;
            println!(rt;
                "  Promised: no good plan exists for it, and the table is blank. It can never be started."
            )
        }
    }
}
