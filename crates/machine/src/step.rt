// One step: the next instruction, with a host that answers natives.
// A machine's parts are passed apart: what a method of it leaves would have to be ready, which is seen only of a whole step.
ghost use Rattle.bytecode.specs.declared.instruction.Instruction.TheVariants.{Invokenative};
ghost use Rattle.plan.specs.Programs.{nth};
ghost use Rattle.reader.specs.View.{program_of};
ghost use Rattle.runtime.specs.Runtime.{asked, act, step as stepping};
ghost use Rattle.ready.specs.Ready.{Bounds, Safe, Whole, Ready};
ghost use Rattle.execution.specs.View.{state_of, going};
ghost use Rattle.machine.specs.Runs.{Steps};

use crate::fetch::fetch;
use bytecode::instruction::Instruction;
use bytecode::stop::Stop;
use execution::Execution;
use host::Host;
use host::call::Reply;
use natives::{Callee, NativeCall};
use reader::package::Package;

// The call of a native: stop 12 unless the host's signature is the sheet's, then what the host replies.
fn ask<H: Host>(
    program: &Package<'_>,
    execution: &mut Execution<'_>,
    host: &mut H,
    native: usize,
    next: usize,
) -> Result<(), Stop>
    requires bounds { Bounds (state_of execution.old) }
    requires safe { Safe (program_of program.now) (Invokenative native) (state_of execution.old) }
    requires whole { Whole (asked (program_of program.now) H.Host.make (state_of execution.old) next (H.Host.state host.old) (nth (program_of program.now).natives native)) }
    ensures { let l = state_of execution.old in Steps (going result) l (state_of execution.new) (H.Host.state host.new) (asked (program_of program.now) H.Host.make l next (H.Host.state host.old) (nth (program_of program.now).natives native)) }
{
    let callee = Callee { program, native };
    if !callee.agrees(host.signature(program.native_index(native))) {
        return Err(Stop::Native);
    }
    let top = execution.top();
    let first = top - program.native_signature(native).argument_count();
    let called = NativeCall {
        callee,
        slots: execution.part(first, top),
    };
    let value = match called.call(host) {
        Reply::Word(word) => word as u64,
        Reply::Null => 0,
        Reply::Argument(position) => { called.reference(position as usize).unwrap() }
        Reply::Stop(fault) => return Err(Stop::Host(fault)),
    };
    execution.put(first, value, next);
    Ok(())
}

// Executes an instruction, to go on at the next place. Answers main's word if main returns.
fn execute<H: Host>(
    program: &Package<'_>,
    execution: &mut Execution<'_>,
    host: &mut H,
    instruction: Instruction,
    next: usize,
) -> Result<Option<u32>, Stop>
    requires bounds { Bounds (state_of execution.old) }
    requires safe { Safe (program_of program.now) instruction (state_of execution.old) }
    requires whole { Whole (act (program_of program.now) H.Host.make instruction next (state_of execution.old) (H.Host.state host.old)) }
    ensures { let l = state_of execution.old in Steps result l (state_of execution.new) (H.Host.state host.new) (act (program_of program.now) H.Host.make instruction next l (H.Host.state host.old)) }
{
    if let Instruction::Invokenative(native) = instruction {
        ask(program, execution, host, native as usize, next)?;
        return Ok(None);
    }
    execution.execute(program, instruction, next)
}

/// One step of a program: fetches the next instruction and executes it. Answers main's word if main returns.
pub(crate) fn step<H: Host>(
    program: &Package<'_>,
    execution: &mut Execution<'_>,
    host: &mut H,
) -> Result<Option<u32>, Stop>
    requires ready { ∥ Ready (program_of program.now) (state_of execution.old) ∥₁ }
    ensures met { let l = state_of execution.old in Steps result l (state_of execution.new) (H.Host.state host.new) (stepping (program_of program.now) H.Host.make l (H.Host.state host.old)) }
    ensures ready { ∥ Ready (program_of program.now) (state_of execution.new) ∥₁ }
{
    let place = execution.place();
    let instruction = fetch(program, execution.function(), place);
    execute(
        program,
        execution,
        host,
        instruction,
        place + instruction.size(),
    )
}
