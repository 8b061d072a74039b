// Cases for what an act and a meeting leave behind where they are refused: no stack gets an entry of no known kind.
use crate::act::StackAct;
use crate::kinds::Kinds;
use crate::shape::Shape;
use crate::table::{ShapeMark, join};
use bytecode::kind::Kind;
use bytecode::refusal::CodeFault;
use std::process::Abort;

// A shape of which no variable is known.
fn shape(stack: Kinds) -> Shape {
    Shape {
        stack,
        variables: [Kind::Unknown; 32],
    }
}

fn all_known(kinds: &[Kind]) -> bool {
    kinds.iter().all(|kind| *kind != Kind::Unknown)
}

// An act that is refused on a stack of words and references leaves so many of them.
fn leaves(rt: &impl Abort, stack: Kinds, act: StackAct, fault: CodeFault, left: usize) {
    let mut met = shape(stack);
    assert_eq!(rt; met.perform(&act, 4), Err(fault));
    assert_eq!(rt; met.stack.count, left);
    assert!(rt; all_known(&met.stack.entries[..left]));
}

#[test]
fn stacks_after_faults(rt: HostRuntime) {
    let full = Kinds::of(&[Kind::Word; 32]);
    let word = Kinds::one(Kind::Word);
    let reference = Kinds::one(Kind::Reference);
    let mixed = Kinds::two(Kind::Reference, Kind::Word);
    let push = StackAct::Fixed(Kinds::none(), Some(Kind::Word));
    leaves(&rt, full, push, CodeFault::TooMany, 32);
    leaves(&rt, full, StackAct::Dup, CodeFault::TooMany, 32);
    leaves(
        &rt,
        reference,
        StackAct::Fixed(word, None),
        CodeFault::WrongKind,
        1,
    );
    leaves(
        &rt,
        word,
        StackAct::Fixed(mixed, None),
        CodeFault::TooFew,
        1,
    );
    leaves(&rt, word, StackAct::Load(3), CodeFault::Variable, 1);
    leaves(&rt, word, StackAct::Load(4), CodeFault::Variable, 1);
    leaves(&rt, word, StackAct::Store(4), CodeFault::Variable, 1);
    leaves(&rt, Kinds::none(), StackAct::Store(3), CodeFault::TooFew, 0);
    leaves(&rt, Kinds::none(), StackAct::Pop, CodeFault::TooFew, 0);
    leaves(&rt, reference, StackAct::Swap, CodeFault::TooFew, 1);
    leaves(&rt, mixed, StackAct::Give(Kind::Word), CodeFault::Return, 2);
    leaves(&rt, mixed, StackAct::Alike, CodeFault::WrongKind, 0);
    leaves(
        &rt,
        word,
        StackAct::Give(Kind::Reference),
        CodeFault::WrongKind,
        0,
    );
}

#[test]
fn record_after_clash(rt: HostRuntime) {
    let mut record = shape(Kinds::two(Kind::Word, Kind::Reference)).record(ShapeMark::Shaped);
    let met = join(&mut record, &shape(Kinds::two(Kind::Word, Kind::Word)));
    assert_eq!(rt; met, Err(CodeFault::StacksDiffer));
    assert_eq!(rt; record.depth, 2);
    assert_eq!(rt;
        &record.stack[..2],
        [Kind::Word, Kind::Reference].as_slice()
    );
    assert!(rt; record.mark == ShapeMark::Shaped);
}
