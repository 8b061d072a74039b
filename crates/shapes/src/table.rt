// The records of the table, and what becomes of a record that a shape reaches.
ghost use Rattle.std.specs.Prelude.{◌≡◌, ℕ};
ghost use Rattle.plan.specs.Programs.{AllKnown};
ghost use Rattle.plan.specs.Sweep.{join as join_of};
ghost use Rattle.shapes.specs.Acts.{told_between};
ghost use Rattle.shapes.specs.Stacks.{Filled};
ghost use Rattle.shapes.specs.Records.{shape_as, shape_in, cell_of, blank_record, Tidy, Whole};

use crate::kinds::{Kinds, narrow};
use crate::shape::Shape;
use bytecode::kind::Kind;
use bytecode::refusal::CodeFault;

/// What a record says of its place: nothing (no start, or past the code), a start without a shape, a shape that is marked
/// to be taken, or a shape. Only the first and the last stand in the table of an accepted program.
#[derive(Clone, Copy, PartialEq, Eq)]
pub enum ShapeMark {
    Blank,
    Start,
    Due,
    Shaped,
}

/// A record of the table, for one byte of code: the kinds on the stack, the bottom first, and of the variables; Unknown where unused.
// The parts stand side by side whatever the mark: the table's records are defined so, and hold a place's stack when it is marked anew.
#[derive(Clone, Copy, PartialEq, Eq)]
pub struct ShapeRecord {
    pub mark: ShapeMark,
    pub depth: usize,
    pub stack: [Kind; 32],
    pub variables: [Kind; 32],
}

/// The record of a place without a shape.
pub fn blank_record() -> ShapeRecord
    ensures { result ≡ blank_record }
{
    ShapeRecord {
        mark: ShapeMark::Blank,
        depth: 0,
        stack: [Kind::Unknown; 32],
        variables: [Kind::Unknown; 32],
    }
}

impl ShapeRecord {
    /// Its shape.
    pub fn shape(&self) -> Shape
        requires { Tidy self.now }
        ensures { shape_as result ≡ shape_in self.now }
    {
        Shape {
            stack: Kinds {
                count: self.depth,
                entries: self.stack,
            },
            variables: self.variables,
        }
    }
}

/// The record of a place is met by a shape that comes from another place. NoStart is a fault of the place that the shape comes from,
/// StacksDiffer one of the place that it meets. Where the stacks of both are of words and references, that of the record is so afterwards too,
/// whatever the answer.
#[tactic(auto, using(crate::proofs::Joining::joining, crate::proofs::Knowing::record_filled))]
#[inline(always)]
pub fn join(record: &mut ShapeRecord, shape: &Shape) -> Result<(), CodeFault>
    requires { Whole «record».old }
    ensures met { (f p q : ℕ) → join_of f p q (cell_of «record».old) (shape_as shape.now) ≡ told_between f p q (λ _. cell_of «record».new) result }
    ensures whole { Whole «record».new }
    ensures known { Filled «record».old.depth «record».old.stack → AllKnown shape.now.stack → Filled «record».new.depth «record».new.stack }
{
    match record.mark {
        ShapeMark::Blank => Err(CodeFault::NoStart),
        ShapeMark::Start => {
            *record = shape.record(ShapeMark::Due);
            Ok(())
        }
        _ => {
            if &record.stack[..record.depth] != shape.stack.as_slice() {
                return Err(CodeFault::StacksDiffer);
            }
            if narrow(&mut record.variables, &shape.variables) {
                record.mark = ShapeMark::Due;
            }
            Ok(())
        }
    }
}
