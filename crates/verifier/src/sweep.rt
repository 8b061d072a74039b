// The sweep of a function.
ghost use Rattle.std.specs.Prelude.{◌≡◌, ◌+◌, ◌*◌, ◌<◌, ◌≤◌, map, length, take, drop, IfOk, OnOk, slice_index_or};
ghost use Rattle.bytecode.specs.Instructions.{starts_of};
ghost use Rattle.bytecode.specs.Outcome.{good, told};
ghost use Rattle.plan.specs.Sweep.{lowest as lowest_of, visit as visit_of, sweep_function, sweep_all};
ghost use Rattle.reader.specs.View.{program_of};
ghost use Rattle.shapes.specs.Records.{cell_of, shape_in, no_record, working_record, Neat};
ghost use Rattle.verifier.specs.Fresh.{fresh_record, fresh_all, AllDecoded};
ghost use Rattle.verifier.specs.Swept.{swept_table, all_tables, working_all};

use crate::body::Body;
use crate::site::Site;
use crate::worklist::{go_on, lowest, spread};
use bytecode::instruction::decode;
use bytecode::refusal::{CodeFault, Refusal};
use reader::package::Package;
use shapes::table::{ShapeMark, ShapeRecord};

impl Body<'_> {
    ghost use Rattle.verifier.specs.Bodies.{program_in, code_in, starts_in};

    // That the table is neat is a clause of each act on it: the table is lent, and a type around it would owe clauses on the loan.
    // Takes the lowest marked place: unmarks it, applies its instruction and goes on. Answers a bound below which nothing is marked.
    #[tactic(auto, using(crate::proofs::Taking::visiting, crate::proofs::Spreading::neat_set, crate::proofs::Faults::placing))]
    fn visit(&self, table: &mut [ShapeRecord], place: usize) -> Result<usize, Refusal>
        requires size { length table.old ≡ length (code_in self.now) }
        requires neat { Neat table.old }
        requires first { place ≡ lowest_of (map cell_of table.old) }
        requires some { place < length table.old }
        ensures met { visit_of (program_in self.now) self.now.function (map cell_of table.old) place (shape_in (slice_index_or table.old place no_record)) ≡ told (λ _. map cell_of table.new) result }
        ensures neat { Neat table.new }
        ensures low { IfOk result (λ n. n ≤ lowest_of (map cell_of table.new)) }
    {
        let site = Site {
            function: self.function,
            place,
        };
        let Some(instruction) = decode(self.code, place) else {
            return Err(site.refusal(CodeFault::Opcode));
        };
        table[place].mark = ShapeMark::Shaped;
        let mut shape = table[place].shape();
        site.answer(self.apply(instruction, &mut shape))?;
        spread(table, &shape, site, instruction)
    }

    // Sweeps the function, in its part of the table, where nothing but the starts is marked. Answers how many takes there were.
    fn sweep(&self, table: &mut [ShapeRecord]) -> Result<usize, Refusal>
        requires fresh { table.old ≡ map fresh_record (starts_in self.now) }
        requires decoded { starts_of self.now.function (code_in self.now) ≡ good (starts_in self.now) }
        ensures met { sweep_function (program_in self.now) self.now.function ≡ told (λ takes. (map cell_of table.new, takes)) result }
        ensures neat { Neat table.new }
        ensures few { IfOk result (λ takes. takes ≤ 33 * length table.new) }
    {
        let start = Site {
            function: self.function,
            place: 0,
        };
        let mut from = go_on(table, &self.entry(), start, Some(0), 0)?;
        let mut takes = 0;
        while let Some(place) = lowest(table, from) {
            from = self.visit(table, place)?;
            takes += 1;
        }
        Ok(takes)
    }

    // The same where the function's part of the table begins at `from`; beside the decoding of a part, which says why both stand.
    #[tactic(auto, using(crate::proofs::Parts::part_after, crate::proofs::Parts::part_read, crate::proofs::Sweeping::told_swept, crate::proofs::Sweeping::made_working))]
    fn sweep_part(&self, table: &mut [ShapeRecord], from: usize) -> Result<usize, Refusal>
        requires room { from + length (code_in self.now) ≤ length table.old }
        requires fresh { take (length (code_in self.now)) (drop from table.old) ≡ map fresh_record (starts_in self.now) }
        requires decoded { starts_of self.now.function (code_in self.now) ≡ good (starts_in self.now) }
        ensures met { sweep_function (program_in self.now) self.now.function ≡ told (λ takes. (swept_table (program_in self.now) self.now.function, takes)) result }
        ensures part { OnOk result (take (length (code_in self.now)) (drop from table.new) ≡ map working_record (swept_table (program_in self.now) self.now.function)) }
        ensures few { IfOk result (λ takes. takes ≤ 33 * length (code_in self.now)) }
        ensures before { take from table.new ≡ take from table.old }
        ensures after { drop (from + length (code_in self.now)) table.new ≡ drop (from + length (code_in self.now)) table.old }
    {
        let to = from + self.code.len();
        self.sweep(&mut table[from..to])
    }
}

// Sweeps all functions, in pool order; answers the takes of all. A loop of its own beside the decoding's: it adds up another thing, and leaves
// another fact of the table at each step.
pub(crate) fn sweep_all(package: &Package, table: &mut [ShapeRecord]) -> Result<usize, Refusal>
    requires room { «package».now.code_size ≤ length table.old }
    requires decoded { AllDecoded (program_of «package».now) }
    requires fresh { table.old ≡ fresh_all (program_of «package».now) (length table.old) }
    ensures met { sweep_all (program_of «package».now) ≡ told (λ takes. (all_tables (program_of «package».now), takes)) result }
    ensures memory { OnOk result (table.new ≡ working_all (length table.old) (all_tables (program_of «package».now))) }
{
    let mut takes = 0;
    let mut from = 0;
    // A package names its functions by their numbers, which faults tell too; each part of the table begins where the one before ends.
    for function in 0..package.function_count() {
        let body = Body {
            package: &*package,
            function,
            code: package.code(function),
        };
        takes += body.sweep_part(table, from)?;
        from += body.code.len();
    }
    Ok(takes)
}
