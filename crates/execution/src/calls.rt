// Calls and returns of functions.
ghost use Rattle.std.specs.Prelude.{◌≡◌, ◌+◌, ◌<◌, ◌≤◌, length, Ok};
ghost use Rattle.runtime.specs.Runtime.{called, returned};
ghost use Rattle.bytecode.specs.declared.instruction.Instruction.TheVariants.{Return};
ghost use Rattle.plan.specs.Programs.{nth, function_at};
ghost use Rattle.reader.specs.View.{program_of};
ghost use Rattle.ready.specs.Ready.{Bounds, Safe};
ghost use Rattle.execution.specs.View.{state_of, going, Comes};

use crate::Execution;
use bytecode::stop::Stop;
use reader::package::Package;
use runtime::FrameRecord;

// What an instruction takes is asked by clauses: it holds of the state at hand.

/// The entries of its operand stack that each frame reserves, besides its variables.
const STACK: usize = 32;

/// What a frame reserves of the slots, by its function's variables.
pub fn reserve(variables: usize) -> usize
    requires { variables ≤ 32 }
    ensures { result ≡ variables + 32 }
{
    variables + STACK
}

impl<'a> Execution<'a> {
    // A call of a function. The arguments stay where they are, and become its first variables.
    pub(crate) fn invoke(
        &mut self,
        program: &Package<'_>,
        function: usize,
        next: usize,
    ) -> Result<(), Stop>
        requires bounds { Bounds (state_of self.old) }
        requires there { function < length (program_of program.now).functions }
        requires given { length (function_at (program_of program.now) function).signature.arguments ≤ (state_of self.old).top }
        ensures { let l = state_of self.old in Comes (going result) l (state_of self.new) (called l next function (nth (program_of program.now).functions function)) }
    {
        if self.frames.left() <= 1 {
            return Err(Stop::Calls);
        }
        let variables = program.variables(function);
        let reserved = reserve(variables) + self.reserved;
        let top = self.top();
        if top + self.slots.left() < reserved {
            return Err(Stop::Calls);
        }
        let base = top - program.signature(function).argument_count();
        self.frames.push_within(FrameRecord {
            place: next,
            ..self.frame
        });
        self.slots.resize(base + variables);
        self.frame = FrameRecord {
            function,
            place: 0,
            base,
        };
        self.reserved = reserved;
        Ok(())
    }

    // A return: the value on top goes to the calling frame, or is main's word.
    pub(crate) fn leave(&mut self, program: &Package<'_>) -> Option<u32>
        requires bounds { Bounds (state_of self.old) }
        requires safe { Safe (program_of program.now) Return (state_of self.old) }
        ensures { let l = state_of self.old in Comes (Ok result) l (state_of self.new) (returned l (nth (program_of program.now).functions l.function)) }
    {
        let top = self.top();
        if self.callers() == 0 {
            return Some(self.word(top - 1));
        }
        let variables = program.variables(self.frame.function);
        let value = self.slot(top - 1);
        self.slots.put(self.frame.base, value);
        self.slots.resize(self.frame.base + 1);
        self.frame = self.frames.pop_within();
        self.reserved -= reserve(variables);
        None
    }
}
