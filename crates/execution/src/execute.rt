// One instruction.
ghost use Rattle.std.specs.Prelude.{◌≡◌};
ghost use Rattle.reader.specs.View.{program_of};
ghost use Rattle.runtime.specs.Runtime.{exec};
ghost use Rattle.ready.specs.Ready.{Bounds, Safe};
ghost use Rattle.execution.specs.View.{state_of, Comes, Plain};

use crate::Execution;
use bytecode::instruction::Instruction;
use bytecode::stop::Stop;
use reader::package::Package;
use word::sign_extend;

impl<'a> Execution<'a> {
    /// Executes an instruction of the program, other than the call of a native, to go on at the next place. Answers main's word if
    /// main returns.
    pub fn execute(
        &mut self,
        program: &Package<'_>,
        instruction: Instruction,
        next: usize,
    ) -> Result<Option<u32>, Stop>
        requires plain { Plain instruction }
        requires bounds { Bounds (state_of self.old) }
        requires safe { Safe (program_of program.now) instruction (state_of self.old) }
        ensures { let l = state_of self.old in Comes result l (state_of self.new) (exec (program_of program.now) instruction next l) }
    {
        match instruction {
            Instruction::Nop => self.skip(next),
            Instruction::Pop => self.pop(next),
            Instruction::Dup => self.dup(next),
            Instruction::Swap => self.swap(next),
            Instruction::AconstNull => self.push(0, next),
            Instruction::Aldc(c) => self.push(c as u64 + 1, next),
            Instruction::Bipush(b) => self.push(sign_extend(b) as u64, next),
            Instruction::Ildc(c) => self.push(program.integer(c as usize) as u64, next),
            Instruction::Vload(i) => self.load(i as usize, next),
            Instruction::Vstore(i) => self.store(i as usize, next),
            Instruction::Binary(op) => self.binary(op, next)?,
            Instruction::IfCmpeq(o) => self.if_equal(o, next),
            Instruction::IfCmpne(o) => self.if_different(o, next),
            Instruction::IfIcmp(order, o) => self.if_ordered(order, o, next),
            Instruction::Goto(o) => self.jump(o),
            Instruction::Invokestatic(c) => self.invoke(program, c as usize, next)?,
            Instruction::Invokenative(_) => unreachable!(),
            Instruction::Return => return Ok(self.leave(program)),
            Instruction::New(s) => self.new_single(s, next)?,
            Instruction::Newarray(s) => self.new_array(s, next)?,
            Instruction::Arraylength => self.array_length(next)?,
            Instruction::Aaddf(f) => self.add_field(f, next)?,
            Instruction::Aadds => self.add_index(next)?,
            Instruction::Imload => self.load_word(next)?,
            Instruction::Cmload => self.load_byte(next)?,
            Instruction::Amload => self.load_reference(next)?,
            Instruction::Imstore => self.store_word(next)?,
            Instruction::Cmstore => self.store_byte(next)?,
            Instruction::Amstore => self.store_reference(next)?,
        }
        Ok(None)
    }
}
