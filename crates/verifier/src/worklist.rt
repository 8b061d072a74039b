// The marked places of a function's part of the table.
ghost use Rattle.std.specs.Prelude.{◌≡◌, ◌+◌, ◌<◌, ◌≤◌, map, length, position, IfOk, MatchOption};
ghost use Rattle.bytecode.specs.Outcome.{told};
ghost use Rattle.plan.specs.Plans.{successors};
ghost use Rattle.plan.specs.Sweep.{lowest as lowest_of, put as put_of, spread as spread_of};
ghost use Rattle.verifier.specs.Swept.{is_due};
ghost use Rattle.shapes.specs.Records.{cell_of, shape_as, Neat};

use crate::flow::{Flow, flow_of};
use crate::site::Site;
use bytecode::instruction::{Instruction, target};
use bytecode::refusal::{CodeFault, Refusal};
use shapes::shape::Shape;
use shapes::table::{ShapeMark, ShapeRecord, join};

// Where the first marked record stands.
fn first_due(table: &[ShapeRecord]) -> Option<usize>
    ensures { result ≡ position is_due table.now }
{
    table
        .iter()
        .position(|record| matches!(record.mark, ShapeMark::Due))
}

// The lowest marked place, where nothing is marked below `from`; none if nothing is marked.
#[tactic(auto, using(crate::proofs::Searching::searching))]
pub(crate) fn lowest(table: &[ShapeRecord], from: usize) -> Option<usize>
    requires { from ≤ lowest_of (map cell_of table.now) }
    ensures { MatchOption result (length table.now ≤ lowest_of (map cell_of table.now)) (λ place. (place ≡ lowest_of (map cell_of table.now)) × (place < length table.now)) }
{
    let offset = first_due(&table[from..])?;
    Some(from + offset)
}

// A shape goes on from a place to the next or to a target. Nothing is marked below `low`; answers such a bound for the table afterwards.
// The bound goes from call to call beside the table: a struct that holds a lent table would owe a clause on the loan in each method.
#[tactic(auto, using(crate::proofs::Spreading::going, crate::proofs::Faults::placing))]
#[inline(always)]
pub(crate) fn go_on(
    table: &mut [ShapeRecord],
    shape: &Shape,
    from: Site,
    to: Option<usize>,
    low: usize,
) -> Result<usize, Refusal>
    requires neat { Neat table.old }
    requires low { low ≤ lowest_of (map cell_of table.old) }
    ensures met { put_of from.function from.place (map cell_of table.old) to (shape_as shape.now) ≡ told (λ _. map cell_of table.new) result }
    ensures neat { Neat table.new }
    ensures low { IfOk result (λ n. n ≤ lowest_of (map cell_of table.new)) }
{
    let Some(place) = to else {
        return Err(from.refusal(CodeFault::NoStart));
    };
    if place >= table.len() {
        return Err(from.refusal(CodeFault::NoStart));
    }
    from.meeting(place, join(&mut table[place], shape))?;
    match table[place].mark {
        ShapeMark::Due => Ok(low.min(place)),
        _ => Ok(low),
    }
}

// A shape goes on to every place that follows an instruction.
#[tactic(auto, using(crate::proofs::Spreading::spreading))]
pub(crate) fn spread(
    table: &mut [ShapeRecord],
    shape: &Shape,
    from: Site,
    instruction: Instruction,
) -> Result<usize, Refusal>
    requires neat { Neat table.old }
    requires inside { from.place < 4096 }
    requires low { from.place + 1 ≤ lowest_of (map cell_of table.old) }
    ensures met { spread_of from.function from.place (shape_as shape.now) (successors from.place instruction) (map cell_of table.old) ≡ told (λ _. map cell_of table.new) result }
    ensures neat { Neat table.new }
    ensures low { IfOk result (λ n. n ≤ lowest_of (map cell_of table.new)) }
{
    let low = from.place + 1;
    let next = Some(from.place + instruction.size());
    match flow_of(instruction) {
        Flow::Next => go_on(table, shape, from, next, low),
        Flow::Branch(offset) => {
            let goal = target(from.place, offset);
            let low = go_on(table, shape, from, next, low)?;
            go_on(table, shape, from, goal, low)
        }
        Flow::Jump(offset) => go_on(table, shape, from, target(from.place, offset), low),
        Flow::End => Ok(low),
    }
}
