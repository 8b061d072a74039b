// Decoding: marks the starts of a code in the table.
ghost use Rattle.std.specs.Prelude.{◌≡◌, ◌+◌, ◌-◌, ◌<◌, ◌≤◌, false as no_start, map, length, take, drop, replicate, IfOk, OnOk};
ghost use Rattle.bytecode.specs.Instructions.{starts_of};
ghost use Rattle.bytecode.specs.Outcome.{told};
ghost use Rattle.verifier.specs.Fresh.{marks_start, fresh_record, fresh_all, all_starts, AllDecoded};
ghost use Rattle.plan.specs.Sweep.{decode_all};
ghost use Rattle.reader.specs.View.{program_of};
ghost use Rattle.shapes.specs.Records.{blank_record};

use crate::body::Body;
use crate::site::Site;
use bytecode::instruction::decode;
use bytecode::refusal::{CodeFault, Refusal};
use reader::package::Package;
use shapes::table::{ShapeMark, ShapeRecord};

// Marks the starts of a function's code in its part of the table, which was blank.
// Each instruction tells by its size where the next begins, so the walk counts no index.
fn mark_starts(function: usize, code: &[u8], table: &mut [ShapeRecord]) -> Result<(), Refusal>
    requires size { length table.old ≡ length code.now }
    requires blank { table.old ≡ map fresh_record (replicate (length code.now) no_start) }
    ensures met { starts_of function code.now ≡ told (λ _. map marks_start table.new) result }
    ensures memory { table.new ≡ map fresh_record (map marks_start table.new) }
{
    let mut place = 0;
    while place < code.len() {
        let Some(instruction) = decode(code, place) else {
            return Err(Site { function, place }.refusal(CodeFault::Opcode));
        };
        table[place].mark = ShapeMark::Start;
        place += instruction.size();
    }
    Ok(())
}

impl Body<'_> {
    ghost use Rattle.verifier.specs.Bodies.{code_in, starts_in};

    // The same for a function of a package, whose part of the table begins at `from`; answers where the next part begins.
    // The sweep goes over the parts in the same way with another fact at each step; one method over both would take what a closure
    // does to the table as a parameter of its contract, longer than these lines.
    #[tactic(auto, using(crate::proofs::Parts::part_after, crate::proofs::Decoding::part_blank))]
    fn mark_part(&self, table: &mut [ShapeRecord], from: usize) -> Result<usize, Refusal>
        requires room { from + length (code_in self.now) ≤ length table.old }
        requires blank { drop from table.old ≡ replicate (length table.old - from) blank_record }
        ensures met { starts_of self.now.function (code_in self.now) ≡ told (λ _. starts_in self.now) result }
        ensures end { IfOk result (λ to. to ≡ from + length (code_in self.now)) }
        ensures part { OnOk result (take (length (code_in self.now)) (drop from table.new) ≡ map fresh_record (starts_in self.now)) }
        ensures before { take from table.new ≡ take from table.old }
        ensures after { drop (from + length (code_in self.now)) table.new ≡ drop (from + length (code_in self.now)) table.old }
    {
        let to = from + self.code.len();
        mark_starts(self.function, self.code, &mut table[from..to])?;
        Ok(to)
    }
}

// Decodes all functions, in pool order, before any is swept.
pub(crate) fn mark_all(package: &Package, table: &mut [ShapeRecord]) -> Result<(), Refusal>
    requires room { «package».now.code_size ≤ length table.old }
    requires blank { table.old ≡ replicate (length table.old) blank_record }
    ensures met { decode_all (program_of «package».now) ≡ told (λ _. all_starts (program_of «package».now)) result }
    ensures decoded { OnOk result (AllDecoded (program_of «package».now)) }
    ensures memory { OnOk result (table.new ≡ fresh_all (program_of «package».now) (length table.old)) }
{
    let mut from = 0;
    // A package names its functions by their numbers, which faults tell too; each part of the table begins where the one before ends.
    for function in 0..package.function_count() {
        let body = Body {
            package: &*package,
            function,
            code: package.code(function),
        };
        from = body.mark_part(table, from)?;
    }
    Ok(())
}
