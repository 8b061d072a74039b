// Comparisons and branches.
ghost use Rattle.std.specs.Prelude.{◌≡◌, ◌-◌, ◌≤◌, not, ◌==◌};
ghost use Rattle.bytecode.specs.Instructions.{target as target_of};
ghost use Rattle.word.specs.Words.{holds as compared};
ghost use Rattle.runtime.specs.Runtime.{slot as slot_in, word_in, branched, jumped, went};
ghost use Rattle.ready.specs.Ready.{Bounds, Lands};
ghost use Rattle.execution.specs.View.{state_of};

use crate::Execution;
use bytecode::instruction::{Order, target};
use word::holds;

impl<'a> Execution<'a> {
    // Whether the two values on top are the same.
    fn equal(&mut self) -> bool
        requires two { 2 ≤ (state_of self.old).top }
        ensures answer { let l = state_of self.old in result ≡ (slot_in l (l.top - 2) == slot_in l (l.top - 1)) }
        ensures same { self.new ≡ self.old }
    {
        let top = self.top();
        let x = self.slot(top - 2);
        let y = self.slot(top - 1);
        x == y
    }

    // Whether the two words on top stand in an order.
    fn ordered(&mut self, order: Order) -> bool
        requires two { 2 ≤ (state_of self.old).top }
        ensures answer { let l = state_of self.old in result ≡ compared order (word_in l (l.top - 2)) (word_in l (l.top - 1)) }
        ensures same { self.new ≡ self.old }
    {
        let top = self.top();
        let x = self.word(top - 2);
        let y = self.word(top - 1);
        holds(order, x, y)
    }

    // Goes on at the target of a branch.
    pub(crate) fn jump(&mut self, offset: i16)
        requires bounds { Bounds (state_of self.old) }
        requires lands { Lands (state_of self.old) offset }
        ensures { let l = state_of self.old in went (state_of self.new) ≡ jumped l l.top (target_of l.place offset) }
    {
        self.frame.place = target(self.frame.place, offset).unwrap();
    }

    // Takes two values off, and goes on at the branch's target or at the next place. What is compared is the caller's: a closure for it would
    // need a contract on the whole state, longer than the three branches below. Offset and next place are numbers of the instruction at hand.
    fn branch(&mut self, taken: bool, offset: i16, next: usize)
        requires bounds { Bounds (state_of self.old) }
        requires two { 2 ≤ (state_of self.old).top }
        requires lands { Lands (state_of self.old) offset }
        ensures { let l = state_of self.old in went (state_of self.new) ≡ branched l next offset (l.top - 2) taken }
    {
        let top = self.top();
        self.slots.resize(top - 2);
        self.frame.place = if taken {
            target(self.frame.place, offset).unwrap()
        } else {
            next
        };
    }

    pub(crate) fn if_equal(&mut self, offset: i16, next: usize)
        requires bounds { Bounds (state_of self.old) }
        requires two { 2 ≤ (state_of self.old).top }
        requires lands { Lands (state_of self.old) offset }
        ensures { let l = state_of self.old in went (state_of self.new) ≡ branched l next offset (l.top - 2) (slot_in l (l.top - 2) == slot_in l (l.top - 1)) }
    {
        let taken = self.equal();
        self.branch(taken, offset, next);
    }

    pub(crate) fn if_different(&mut self, offset: i16, next: usize)
        requires bounds { Bounds (state_of self.old) }
        requires two { 2 ≤ (state_of self.old).top }
        requires lands { Lands (state_of self.old) offset }
        ensures { let l = state_of self.old in went (state_of self.new) ≡ branched l next offset (l.top - 2) (not (slot_in l (l.top - 2) == slot_in l (l.top - 1))) }
    {
        let taken = !self.equal();
        self.branch(taken, offset, next);
    }

    pub(crate) fn if_ordered(&mut self, order: Order, offset: i16, next: usize)
        requires bounds { Bounds (state_of self.old) }
        requires two { 2 ≤ (state_of self.old).top }
        requires lands { Lands (state_of self.old) offset }
        ensures { let l = state_of self.old in went (state_of self.new) ≡ branched l next offset (l.top - 2) (compared order (word_in l (l.top - 2)) (word_in l (l.top - 1))) }
    {
        let taken = self.ordered(order);
        self.branch(taken, offset, next);
    }
}
