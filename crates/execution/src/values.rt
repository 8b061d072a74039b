// Instructions on the operand stack and the variables.
ghost use Rattle.std.specs.Prelude.{◌≡◌, ◌+◌, ◌-◌, ◌<◌, ◌≤◌, length};
ghost use Rattle.word.specs.Words.{compute as computed};
ghost use Rattle.runtime.specs.Runtime.{slot as slot_in, word_in, moved, pushed, assigned, swapped, tried, went};
ghost use Rattle.ready.specs.Ready.{Bounds, Room};
ghost use Rattle.execution.specs.View.{state_of, going, Comes};

use crate::Execution;
use bytecode::instruction::Operation;
use bytecode::stop::Stop;
use word::compute;

// What an instruction takes, and the room for what it gives, are asked for by clauses: they hold of the state at hand, and not of every
// execution. A question takes the execution for writing, as those of its stacks do, and promises that nothing changed.
impl<'a> Execution<'a> {
    // What is in a slot.
    pub(crate) fn slot(&mut self, at: usize) -> u64
        requires there { at < length (state_of self.old).slots }
        ensures value { result ≡ slot_in (state_of self.old) at }
        ensures same { self.new ≡ self.old }
    {
        self.slots.at(at)
    }

    // The word in a slot.
    pub(crate) fn word(&mut self, at: usize) -> u32
        requires there { at < length (state_of self.old).slots }
        ensures value { result ≡ word_in (state_of self.old) at }
        ensures same { self.new ≡ self.old }
    {
        // A cast must lose nothing, and no method takes the low half of a number.
        (self.slot(at) % (1 << 32)) as u32
    }

    // Goes on at a place, with the stack cut.
    pub(crate) fn cut(&mut self, top: usize, next: usize)
        requires room { top ≤ length (state_of self.old).slots }
        ensures { state_of self.new ≡ moved (state_of self.old) next top }
    {
        self.slots.resize(top);
        self.frame.place = next;
    }

    /// Goes on at a place, with a value in a slot, right above which the stack ends.
    pub fn put(&mut self, at: usize, value: u64, next: usize)
        requires room { at < length (state_of self.old).slots }
        ensures { state_of self.new ≡ pushed (state_of self.old) next at value }
    {
        self.slots.resize(at);
        self.push(value, next);
    }

    pub(crate) fn skip(&mut self, next: usize)
        ensures { state_of self.new ≡ moved (state_of self.old) next (state_of self.old).top }
    {
        self.frame.place = next;
    }

    pub(crate) fn push(&mut self, value: u64, next: usize)
        requires room { Room (state_of self.old) }
        ensures { state_of self.new ≡ pushed (state_of self.old) next (state_of self.old).top value }
    {
        self.slots.push_within(value);
        self.frame.place = next;
    }

    pub(crate) fn pop(&mut self, next: usize)
        requires some { 1 ≤ (state_of self.old).top }
        ensures { state_of self.new ≡ moved (state_of self.old) next ((state_of self.old).top - 1) }
    {
        let top = self.top();
        self.cut(top - 1, next);
    }

    pub(crate) fn dup(&mut self, next: usize)
        requires some { 1 ≤ (state_of self.old).top }
        requires room { Room (state_of self.old) }
        ensures { let l = state_of self.old in state_of self.new ≡ pushed l next l.top (slot_in l (l.top - 1)) }
    {
        let top = self.top();
        let value = self.slot(top - 1);
        self.push(value, next);
    }

    pub(crate) fn swap(&mut self, next: usize)
        requires two { 2 ≤ (state_of self.old).top }
        ensures { state_of self.new ≡ swapped (state_of self.old) next }
    {
        let top = self.top();
        let first = self.slot(top - 2);
        let second = self.slot(top - 1);
        self.slots.put(top - 2, second);
        self.slots.put(top - 1, first);
        self.frame.place = next;
    }

    pub(crate) fn load(&mut self, variable: usize, next: usize)
        requires bounds { Bounds (state_of self.old) }
        requires room { Room (state_of self.old) }
        requires there { (state_of self.old).base + variable < length (state_of self.old).slots }
        ensures { let l = state_of self.old in state_of self.new ≡ pushed l next l.top (slot_in l (l.base + variable)) }
    {
        let value = self.slot(self.frame.base + variable);
        self.push(value, next);
    }

    pub(crate) fn store(&mut self, variable: usize, next: usize)
        requires bounds { Bounds (state_of self.old) }
        requires some { 1 ≤ (state_of self.old).top }
        requires there { (state_of self.old).base + variable < length (state_of self.old).slots }
        ensures { let l = state_of self.old in state_of self.new ≡ assigned l next (l.base + variable) (slot_in l (l.top - 1)) }
    {
        let value = self.slots.pop_within();
        self.slots.put(self.frame.base + variable, value);
        self.frame.place = next;
    }

    pub(crate) fn binary(&mut self, op: Operation, next: usize) -> Result<(), Stop>
        requires two { 2 ≤ (state_of self.old).top }
        ensures { let l = state_of self.old in Comes (going result) l (state_of self.new) (tried (computed op (word_in l (l.top - 2)) (word_in l (l.top - 1))) (λ z. went (pushed l next (l.top - 2) z))) }
    {
        let top = self.top();
        let x = self.word(top - 2);
        let y = self.word(top - 1);
        let z = compute(op, x, y)?;
        self.put(top - 2, z as u64, next);
        Ok(())
    }
}
