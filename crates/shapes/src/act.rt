// What instructions do to the stack and the variables of a shape.
ghost use Rattle.std.specs.Prelude.{◌≡◌, ℕ, ◌≤◌};
ghost use Rattle.plan.specs.Programs.{AllKnown};
ghost use Rattle.plan.specs.Effects.{perform as perform_of, load as load_of, store as store_of, LeavesKnown};
ghost use Rattle.shapes.specs.Acts.{act_in, told_at};
ghost use Rattle.shapes.specs.Records.{shape_as};

use crate::kinds::Kinds;
use crate::shape::Shape;
use bytecode::kind::Kind;
use bytecode::refusal::CodeFault;

/// What an instruction does to the stack: it takes some kinds and leaves one or none, or is one of those that work on any kinds.
/// `Load` and `Store` have the number of a variable; `Alike` takes two of one kind; `Give` takes the only entry, of this kind.
// One function picks an act and another does it. A closure would say the same, but none may be made and handed out.
#[derive(Clone, Copy)]
pub enum StackAct {
    Fixed(Kinds, Option<Kind>),
    Load(usize),
    Store(usize),
    Pop,
    Dup,
    Swap,
    Alike,
    Give(Kind),
}

// A function has at most 32 variables: how many is the reader's to say, so a clause asks for it.
#[tactic(auto, using(crate::proofs::Acting::kept, crate::proofs::Knowing::known_unless), unfolding(plan::specs::Effects::perform))]
impl Shape {
    // Puts the kind of a variable on the stack.
    fn load(&mut self, variable: usize, count: usize) -> Result<(), CodeFault>
        requires few { count ≤ 32 }
        ensures met { (f p : ℕ) → perform_of f p count (load_of variable) (shape_as self.old) ≡ told_at f p (λ _. shape_as self.new) result }
        ensures known { AllKnown self.old.stack → AllKnown self.new.stack }
    {
        if variable >= count {
            return Err(CodeFault::Variable);
        }
        let kind = self.variables[variable];
        if kind == Kind::Unknown {
            return Err(CodeFault::Variable);
        }
        self.stack.push(kind)
    }

    // Takes the top into a variable.
    fn store(&mut self, variable: usize, count: usize) -> Result<(), CodeFault>
        requires few { count ≤ 32 }
        ensures met { (f p : ℕ) → perform_of f p count (store_of variable) (shape_as self.old) ≡ told_at f p (λ _. shape_as self.new) result }
        ensures known { AllKnown self.old.stack → AllKnown self.new.stack }
    {
        if variable >= count {
            return Err(CodeFault::Variable);
        }
        self.variables[variable] = self.stack.pop()?;
        Ok(())
    }

    /// Does an act in a function with so many variables, or answers the first check that it fails.
    /// A stack of words and references is one afterwards too, whatever the answer, unless the act itself leaves an `Unknown`.
    pub fn perform(&mut self, act: &StackAct, count: usize) -> Result<(), CodeFault>
        requires few { count ≤ 32 }
        ensures met { (f p : ℕ) → perform_of f p count (act_in act.now) (shape_as self.old) ≡ told_at f p (λ _. shape_as self.new) result }
        ensures known { LeavesKnown (act_in act.now) → AllKnown self.old.stack → AllKnown self.new.stack }
    {
        match act {
            StackAct::Fixed(taken, left) => self.stack.replace(taken, *left),
            StackAct::Load(variable) => self.load(*variable, count),
            StackAct::Store(variable) => self.store(*variable, count),
            StackAct::Pop => {
                self.stack.pop()?;
                Ok(())
            }
            StackAct::Dup => self.stack.dup(),
            StackAct::Swap => self.stack.swap(),
            StackAct::Alike => self.stack.take_alike(),
            StackAct::Give(kind) => self.stack.give(*kind),
        }
    }
}
