// What each instruction does to the stack, by the pools and the sheet of its package.
ghost use Rattle.std.specs.Prelude.{◌≡◌, ℕ, [], ◌∷◌, reverse, slice_index_or, IfSome};
ghost use Rattle.bytecode.specs.declared.kind.Kind.TheVariants.{Unknown};
ghost use Rattle.plan.specs.Programs.{nth};
ghost use Rattle.plan.specs.Plans.{entry_of};
ghost use Rattle.plan.specs.Effects.{fixed as fixed_of, within, call_static, call_native, act_of, effect as effect_of};
ghost use Rattle.reader.specs.Entries.{signature_of};
ghost use Rattle.reader.specs.View.{program_of};
ghost use Rattle.shapes.specs.Acts.{one_or_none, told_at};
ghost use Rattle.shapes.specs.Records.{shape_as};
ghost use Rattle.verifier.specs.Acting.{acts_as, padded, called, Few};

use crate::body::Body;
use bytecode::instruction::Instruction;
use bytecode::kind::Kind;
use bytecode::refusal::CodeFault;
use reader::package::{Package, Signature};
use shapes::act::StackAct;
use shapes::kinds::Kinds;
use shapes::shape::Shape;
use std::array;

// That a signature has few arguments is a clause of what takes one: the check has no rule for reading an element of an array whose type
// has a ghost field, and a package holds its signatures in arrays.

// The kinds of arguments as those of the variables at entry.
fn argument_variables(signature: &Signature) -> [Kind; 32]
    requires { Few signature.now }
    ensures { result ≡ padded (signature_of signature.now).arguments }
{
    array::from_fn(
        |argument| -> Kind
            ensures { result ≡ slice_index_or (signature_of signature.entry.now).arguments argument Unknown }
        {
            if argument < signature.argument_count() {
                signature.argument_kind(argument)
            } else {
                Kind::Unknown
            }
        },
    )
}

// The kinds of arguments on the stack, the last on top.
#[tactic(auto, using(crate::proofs::Arguments::front_kinds))]
fn arguments(signature: &Signature) -> Kinds
    requires { Few signature.now }
    ensures { result ≡ reverse (signature_of signature.now).arguments }
{
    let entries = argument_variables(signature);
    Kinds::of(&entries[..signature.argument_count()])
}

// What a function takes and gives; none if there is no such function.
#[tactic(auto, using(crate::proofs::Arguments::calling))]
fn function_signature<'a>(package: &Package<'a>, function: usize) -> Option<Signature<'a>>
    ensures met { call_static (nth (program_of «package».now).functions function) ≡ called result }
    ensures few { IfSome result Few }
{
    if function < package.function_count() {
        Some(package.signature(function))
    } else {
        None
    }
}

// What a native takes and gives; none if there is no such native.
// Functions and natives have numbers of their own, and a package answers for each by a method of its own, so this stands beside the one above.
#[tactic(auto, using(crate::proofs::Arguments::calling))]
fn native_signature<'a>(package: &Package<'a>, native: usize) -> Option<Signature<'a>>
    ensures met { call_native (nth (program_of «package».now).natives native) ≡ called result }
    ensures few { IfSome result Few }
{
    if native < package.native_count() {
        Some(package.native_signature(native))
    } else {
        None
    }
}

// A call of what takes and gives these kinds; none if there is nothing to call.
fn call(signature: Option<Signature>) -> Option<StackAct>
    requires { IfSome signature Few }
    ensures { called signature.entry ≡ acts_as result }
{
    let signature = signature?;
    Some(StackAct::Fixed(arguments(&signature), Some(signature.result_kind())))
}

// An act that takes these kinds and leaves one or none.
fn fixed(taken: Kinds, left: Option<Kind>) -> Option<StackAct>
    ensures { acts_as result ≡ Some (fixed_of taken (one_or_none left)) }
{
    Some(StackAct::Fixed(taken, left))
}

// A constant of a pool with so many entries.
fn constant(index: usize, count: usize, kind: Kind) -> Option<StackAct>
    ensures { within index count (fixed_of [] (kind ∷ [])) ≡ acts_as result }
{
    if index < count {
        fixed(Kinds::none(), Some(kind))
    } else {
        None
    }
}

impl Body<'_> {
    ghost use Rattle.verifier.specs.Bodies.{program_in, function_in};

    // What an instruction of a function does; none if its index lies outside its pool.
    fn act_of(&self, instruction: Instruction) -> Option<StackAct>
        ensures { act_of (program_in self.now) (function_in self.now) instruction ≡ acts_as result }
    {
        let package = self.package;
        let word = Kind::Word;
        let reference = Kind::Reference;
        match instruction {
            Instruction::Nop | Instruction::Goto(_) => fixed(Kinds::none(), None),
            Instruction::Pop => Some(StackAct::Pop),
            Instruction::Dup => Some(StackAct::Dup),
            Instruction::Swap => Some(StackAct::Swap),
            Instruction::AconstNull | Instruction::New(_) => fixed(Kinds::none(), Some(reference)),
            Instruction::Aldc(index) => constant(index as usize, package.strings.len(), reference),
            Instruction::Bipush(_) => fixed(Kinds::none(), Some(word)),
            Instruction::Ildc(index) => constant(index as usize, package.integers.len(), word),
            Instruction::Vload(variable) => Some(StackAct::Load(variable as usize)),
            Instruction::Vstore(variable) => Some(StackAct::Store(variable as usize)),
            Instruction::Binary(_) => fixed(Kinds::two(word, word), Some(word)),
            Instruction::IfCmpeq(_) | Instruction::IfCmpne(_) => Some(StackAct::Alike),
            Instruction::IfIcmp(_, _) => fixed(Kinds::two(word, word), None),
            Instruction::Invokestatic(index) => call(function_signature(package, index as usize)),
            Instruction::Invokenative(index) => call(native_signature(package, index as usize)),
            Instruction::Return => Some(StackAct::Give(
                package.signature(self.function).result_kind(),
            )),
            Instruction::Newarray(_) => fixed(Kinds::one(word), Some(reference)),
            Instruction::Arraylength | Instruction::Imload | Instruction::Cmload => fixed(
                Kinds::one(reference),
                Some(word),
            ),
            Instruction::Aaddf(_) | Instruction::Amload => fixed(
                Kinds::one(reference),
                Some(reference),
            ),
            Instruction::Aadds => fixed(Kinds::two(reference, word), Some(reference)),
            Instruction::Imstore | Instruction::Cmstore => fixed(Kinds::two(reference, word), None),
            Instruction::Amstore => fixed(Kinds::two(reference, reference), None),
        }
    }

    // Applies an instruction, or answers the first check that it fails.
    pub(crate) fn apply(&self, instruction: Instruction, shape: &mut Shape) -> Result<(), CodeFault>
        ensures { (p : ℕ) → effect_of (program_in self.now) self.now.function p instruction (shape_as shape.old) ≡ told_at self.now.function p (λ _. shape_as shape.new) result }
    {
        let Some(act) = self.act_of(instruction) else {
            return Err(CodeFault::PoolIndex);
        };
        shape.perform(&act, self.package.variables(self.function))
    }

    // The shape at the entry.
    #[tactic(auto, using(crate::proofs::Arguments::function_few))]
    pub(crate) fn entry(&self) -> Shape
        ensures { shape_as result ≡ entry_of (function_in self.now) }
    {
        Shape {
            stack: Kinds::none(),
            variables: argument_variables(&self.package.signature(self.function)),
        }
    }
}
