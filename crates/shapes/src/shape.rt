// Shapes: what is known of a place.
ghost use Rattle.std.specs.Prelude.{◌≡◌, length};

use crate::kinds::Kinds;
use crate::table::{ShapeMark, ShapeRecord};
use bytecode::kind::Kind;

/// The kinds on the stack and of the variables; Unknown where no kind is known.
#[derive(Drop)]
pub struct Shape {
    pub stack: Kinds,
    pub variables: [Kind; 32],
    pub ghost wide: { length variables ≡ 32 },
}

impl Shape {
    ghost use Rattle.shapes.specs.Records.{shape_as, shape_in, Tidy};

    /// The record of a place that has this shape.
    pub fn record(&self, mark: ShapeMark) -> ShapeRecord
        ensures mark { result.mark ≡ mark }
        ensures shape { shape_in result ≡ shape_as self.now }
        ensures tidy { Tidy result }
    {
        ShapeRecord {
            mark,
            depth: self.stack.count,
            stack: self.stack.entries,
            variables: self.variables,
        }
    }
}
