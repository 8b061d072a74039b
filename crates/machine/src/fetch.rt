// Where an instruction is fetched.
ghost use Rattle.std.specs.Prelude.{◌≡◌, ◌<◌, true, length, is_some, Some};
ghost use Rattle.bytecode.specs.Instructions.{decode_at};
ghost use Rattle.plan.specs.Programs.{function_at};
ghost use Rattle.reader.specs.View.{program_of};

use bytecode::instruction::{Instruction, instruction_of};
use reader::package::Package;

// The instruction at a place of a function, where one stands. Nothing is tested: it is read from three bytes, of which it may
// have fewer.
#[tactic(auto, using(crate::proofs::Fetching::fetched_is))]
pub(crate) fn fetch(program: &Package<'_>, function: usize, place: usize) -> Instruction
    requires there { function < length (program_of program.now).functions }
    requires inside { place < length (function_at (program_of program.now) function).code }
    requires decodes { is_some (decode_at (function_at (program_of program.now) function).code place) ≡ true }
    ensures { decode_at (function_at (program_of program.now) function).code place ≡ Some result }
{
    let (op, first, second) = program.code_bytes(function, place);
    instruction_of(op, first, second).unwrap()
}
