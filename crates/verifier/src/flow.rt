// Where control can go from an instruction.
ghost use Rattle.std.specs.Prelude.{◌≡◌, ℕ};
ghost use Rattle.bytecode.specs.Instructions.{size_of};
ghost use Rattle.plan.specs.Plans.{successors};
ghost use Rattle.verifier.specs.Flows.{followers};

use bytecode::instruction::Instruction;

// What the sweep asks of an instruction: four cases stand for them all.
/// To the next place, there and to a branch's target, to a target alone, or nowhere. Targets are offsets from the instruction's own place.
#[derive(Clone, Copy)]
pub(crate) enum Flow {
    Next,
    Branch(i16),
    Jump(i16),
    End,
}

pub(crate) fn flow_of(instruction: Instruction) -> Flow
    ensures { (p : ℕ) → successors p instruction ≡ followers p (size_of instruction) result }
{
    match instruction {
        Instruction::IfCmpeq(offset)
        | Instruction::IfCmpne(offset)
        | Instruction::IfIcmp(_, offset) => Flow::Branch(offset),
        Instruction::Goto(offset) => Flow::Jump(offset),
        Instruction::Return => Flow::End,
        Instruction::Nop
        | Instruction::Pop
        | Instruction::Dup
        | Instruction::Swap
        | Instruction::AconstNull
        | Instruction::Aldc(_)
        | Instruction::Bipush(_)
        | Instruction::Ildc(_)
        | Instruction::Vload(_)
        | Instruction::Vstore(_)
        | Instruction::Binary(_)
        | Instruction::Invokestatic(_)
        | Instruction::Invokenative(_)
        | Instruction::New(_)
        | Instruction::Newarray(_)
        | Instruction::Arraylength
        | Instruction::Aaddf(_)
        | Instruction::Aadds
        | Instruction::Imload
        | Instruction::Cmload
        | Instruction::Amload
        | Instruction::Imstore
        | Instruction::Cmstore
        | Instruction::Amstore => Flow::Next,
    }
}
