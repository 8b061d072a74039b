// Checks a package: reads it, decodes and sweeps all of its functions, and leaves their shapes in the table.
ghost use Rattle.std.specs.Prelude.{◌≡◌, ◌≤◌, map, length, replicate, IfOk};
ghost use Rattle.bytecode.specs.Outcome.{good, told};
ghost use Rattle.bytecode.specs.Program.{Program as Meaning};
ghost use Rattle.plan.specs.Programs.{WellFormed};
ghost use Rattle.reader.specs.Layout.{package_at};
ghost use Rattle.reader.specs.View.{program_of, code_size};
ghost use Rattle.shapes.specs.Records.{blank_record};
ghost use Rattle.verifier.specs.Swept.{working_all, finished};
ghost use Rattle.verifier.specs.Checking.{check_of, answered, answer_of, table_after, tables_in, Checked, Decides};

use crate::starts::mark_all;
use crate::sweep::sweep_all;
use bytecode::refusal::Refusal;
use reader::package::Package;
use reader::read_package;
use shapes::table::{ShapeMark, ShapeRecord, blank_record};

/// A program that `check` has accepted. Nothing else makes one. What the check found of it is no invariant of the type: `start` asks for it.
#[derive(Clone, Copy)]
pub struct Program<'a> {
    contents: Package<'a>,
}

/// The answer of `check`: the program, and how many places the sweep took in all.
#[derive(Clone, Copy)]
pub struct Accepted<'a> {
    pub program: Program<'a>,
    pub takes: usize,
}

impl<'a> Program<'a> {
    /// The bytes of its package.
    pub fn bytes(&self) -> &'a [u8]
        ensures { result.now ≡ self.now.contents.bytes.now }
    {
        self.contents.bytes
    }

    pub fn function_count(&self) -> usize
        ensures { result ≡ length (program_of self.now.contents).functions }
    {
        self.contents.function_count()
    }

    /// What its package holds.
    pub fn contents(&self) -> &Package<'a>
        ensures { result.now ≡ self.now.contents }
    {
        &self.contents
    }
}

// Makes the starts without a shape blank.
#[tactic(auto, using(crate::proofs::Finishing::finishing))]
fn drop_starts(table: &mut [ShapeRecord])
    ensures { table.new ≡ map finished table.old }
{
    for record in table.iter_mut() {
        if let ShapeMark::Start = record.mark {
            record.mark = ShapeMark::Blank;
        }
    }
}

// Reads, decodes and sweeps, in a blank table.
#[tactic(auto, using(crate::proofs::Judging::steps, crate::proofs::Forming::well_formed, crate::proofs::Judging::formed_only))]
fn judge<'a>(bytes: &'a [u8], table: &mut [ShapeRecord]) -> Result<Accepted<'a>, Refusal>
    requires blank { table.old ≡ replicate (length table.old) blank_record }
    ensures met { answered (check_of bytes.now (length table.old)) ≡ told answer_of result }
    ensures memory { IfOk result (λ a. table.new ≡ working_all (length table.old) (tables_in (check_of bytes.now (length table.old)))) }
    ensures lent { IfOk result (λ a. a.program.contents.bytes.now ≡ bytes.now) }
    ensures checked { IfOk result (λ a. Checked a.program) }
    ensures formed { (P : Meaning) → package_at bytes.now ≡ good P → WellFormed P }
{
    let package = read_package(bytes)?;
    if table.len() < package.code_size {
        return Err(Refusal::Table);
    }
    mark_all(&package, table)?;
    let takes = sweep_all(&package, table)?;
    Ok(Accepted {
        program: Program { contents: package },
        takes,
    })
}

/// Checks a package. If it is accepted, the table holds the fullest plan of each of its functions, one record for each byte of code;
/// records without a shape, and all after a refusal, are blank.
#[tactic(auto, using(crate::proofs::Judging::deciding))]
pub fn check<'a>(bytes: &'a [u8], table: &mut [ShapeRecord]) -> Result<Accepted<'a>, Refusal>
    ensures met { answered (check_of bytes.now (length table.old)) ≡ told answer_of result }
    ensures memory { table.new ≡ table_after (length table.old) (check_of bytes.now (length table.old)) }
    ensures lent { IfOk result (λ a. a.program.contents.bytes.now ≡ bytes.now) }
    ensures checked { IfOk result (λ a. Checked a.program) }
    ensures decides { (P : Meaning) → package_at bytes.now ≡ good P → code_size P.functions ≤ length table.old → Decides P result table.new }
{
    table.fill(blank_record());
    match judge(bytes, table) {
        Ok(accepted) => {
            drop_starts(table);
            Ok(accepted)
        }
        Err(refusal) => {
            table.fill(blank_record());
            Err(refusal)
        }
    }
}
