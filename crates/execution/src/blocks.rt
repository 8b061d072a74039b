// Instructions on blocks.
ghost use Rattle.std.specs.Prelude.{◌≡◌, ◌-◌, ◌<◌, ◌≤◌, length};
ghost use Rattle.heap.specs.Storage.{Known, new_single, new_array, array_length, add_index, add_field, load_word, load_byte, load_reference, store_word, store_byte, store_reference};
ghost use Rattle.runtime.specs.Runtime.{slot as slot_in, word_in, moved, pushed, with_storage, tried, went};
ghost use Rattle.ready.specs.Ready.{Room, KnownIn};
ghost use Rattle.execution.specs.View.{state_of, going, Comes};

use crate::Execution;
use bytecode::stop::Stop;
use cells::content::{Byte, Reference, Word};

// What an instruction takes is asked by clauses: it holds of the state at hand.
impl<'a> Execution<'a> {
    // The number of the reference in a slot.
    fn reference(&mut self, at: usize) -> u64
        requires there { at < length (state_of self.old).slots }
        requires known { KnownIn (state_of self.old) at }
        ensures value { result ≡ slot_in (state_of self.old) at }
        ensures known { Known self.new.memory.count result }
        ensures same { self.new ≡ self.old }
    {
        self.slot(at)
    }

    pub(crate) fn new_single(&mut self, size: u8, next: usize) -> Result<(), Stop>
        requires room { Room (state_of self.old) }
        ensures { let l = state_of self.old in Comes (going result) l (state_of self.new) (tried (new_single l.storage size) (λ a. went (pushed (with_storage l a.storage) next l.top a.number))) }
    {
        let number = self.memory.new_single(size)?;
        self.push(number, next);
        Ok(())
    }

    pub(crate) fn new_array(&mut self, size: u8, next: usize) -> Result<(), Stop>
        requires some { 1 ≤ (state_of self.old).top }
        ensures { let l = state_of self.old in Comes (going result) l (state_of self.new) (tried (new_array l.storage size (word_in l (l.top - 1))) (λ a. went (pushed (with_storage l a.storage) next (l.top - 1) a.number))) }
    {
        let at = self.top() - 1;
        let count = self.word(at);
        let number = self.memory.new_array(size, count)?;
        self.put(at, number, next);
        Ok(())
    }

    pub(crate) fn array_length(&mut self, next: usize) -> Result<(), Stop>
        requires some { 1 ≤ (state_of self.old).top }
        requires known { KnownIn (state_of self.old) ((state_of self.old).top - 1) }
        ensures { let l = state_of self.old in Comes (going result) l (state_of self.new) (tried (array_length l.storage (slot_in l (l.top - 1))) (λ n. went (pushed l next (l.top - 1) n))) }
    {
        let at = self.top() - 1;
        let reference = self.reference(at);
        let bits = self.memory.array_length(reference)?;
        self.put(at, bits as u64, next);
        Ok(())
    }

    pub(crate) fn add_field(&mut self, field: u8, next: usize) -> Result<(), Stop>
        requires some { 1 ≤ (state_of self.old).top }
        requires known { KnownIn (state_of self.old) ((state_of self.old).top - 1) }
        ensures { let l = state_of self.old in Comes (going result) l (state_of self.new) (tried (add_field l.storage (slot_in l (l.top - 1)) field) (λ n. went (pushed l next (l.top - 1) n))) }
    {
        let at = self.top() - 1;
        let reference = self.reference(at);
        let number = self.memory.add_field(reference, field)?;
        self.put(at, number, next);
        Ok(())
    }

    pub(crate) fn add_index(&mut self, next: usize) -> Result<(), Stop>
        requires two { 2 ≤ (state_of self.old).top }
        requires known { KnownIn (state_of self.old) ((state_of self.old).top - 2) }
        ensures { let l = state_of self.old in Comes (going result) l (state_of self.new) (tried (add_index l.storage (slot_in l (l.top - 2)) (word_in l (l.top - 1))) (λ n. went (pushed l next (l.top - 2) n))) }
    {
        let top = self.top();
        let reference = self.reference(top - 2);
        let index = self.word(top - 1);
        let number = self.memory.add_index(reference, index)?;
        self.put(top - 2, number, next);
        Ok(())
    }

    // The loads and the stores stay apart here: over any content a clause would have to say which number a value is in a slot.
    pub(crate) fn load_word(&mut self, next: usize) -> Result<(), Stop>
        requires some { 1 ≤ (state_of self.old).top }
        requires known { KnownIn (state_of self.old) ((state_of self.old).top - 1) }
        ensures { let l = state_of self.old in Comes (going result) l (state_of self.new) (tried (load_word l.storage (slot_in l (l.top - 1))) (λ n. went (pushed l next (l.top - 1) n))) }
    {
        let at = self.top() - 1;
        let reference = self.reference(at);
        let bits = self.memory.load::<Word>(reference)?;
        self.put(at, bits as u64, next);
        Ok(())
    }

    pub(crate) fn load_byte(&mut self, next: usize) -> Result<(), Stop>
        requires some { 1 ≤ (state_of self.old).top }
        requires known { KnownIn (state_of self.old) ((state_of self.old).top - 1) }
        ensures { let l = state_of self.old in Comes (going result) l (state_of self.new) (tried (load_byte l.storage (slot_in l (l.top - 1))) (λ n. went (pushed l next (l.top - 1) n))) }
    {
        let at = self.top() - 1;
        let reference = self.reference(at);
        let bits = self.memory.load::<Byte>(reference)?;
        self.put(at, bits as u64, next);
        Ok(())
    }

    pub(crate) fn load_reference(&mut self, next: usize) -> Result<(), Stop>
        requires some { 1 ≤ (state_of self.old).top }
        requires known { KnownIn (state_of self.old) ((state_of self.old).top - 1) }
        ensures { let l = state_of self.old in Comes (going result) l (state_of self.new) (tried (load_reference l.storage (slot_in l (l.top - 1))) (λ n. went (pushed l next (l.top - 1) n))) }
    {
        let at = self.top() - 1;
        let reference = self.reference(at);
        let number = self.memory.load::<Reference>(reference)?;
        self.put(at, number, next);
        Ok(())
    }

    pub(crate) fn store_word(&mut self, next: usize) -> Result<(), Stop>
        requires two { 2 ≤ (state_of self.old).top }
        requires known { KnownIn (state_of self.old) ((state_of self.old).top - 2) }
        ensures { let l = state_of self.old in Comes (going result) l (state_of self.new) (tried (store_word l.storage (slot_in l (l.top - 2)) (word_in l (l.top - 1))) (λ m. went (moved (with_storage l m) next (l.top - 2)))) }
    {
        let top = self.top();
        let reference = self.reference(top - 2);
        let bits = self.word(top - 1);
        self.memory.store::<Word>(reference, bits)?;
        self.cut(top - 2, next);
        Ok(())
    }

    pub(crate) fn store_byte(&mut self, next: usize) -> Result<(), Stop>
        requires two { 2 ≤ (state_of self.old).top }
        requires known { KnownIn (state_of self.old) ((state_of self.old).top - 2) }
        ensures { let l = state_of self.old in Comes (going result) l (state_of self.new) (tried (store_byte l.storage (slot_in l (l.top - 2)) (word_in l (l.top - 1))) (λ m. went (moved (with_storage l m) next (l.top - 2)))) }
    {
        let top = self.top();
        let reference = self.reference(top - 2);
        let bits = self.word(top - 1);
        self.memory.store::<Byte>(reference, bits)?;
        self.cut(top - 2, next);
        Ok(())
    }

    pub(crate) fn store_reference(&mut self, next: usize) -> Result<(), Stop>
        requires two { 2 ≤ (state_of self.old).top }
        requires known { KnownIn (state_of self.old) ((state_of self.old).top - 2) }
        requires held { KnownIn (state_of self.old) ((state_of self.old).top - 1) }
        ensures { let l = state_of self.old in Comes (going result) l (state_of self.new) (tried (store_reference l.storage (slot_in l (l.top - 2)) (slot_in l (l.top - 1))) (λ m. went (moved (with_storage l m) next (l.top - 2)))) }
    {
        let top = self.top();
        let reference = self.reference(top - 2);
        let held = self.reference(top - 1);
        self.memory.store::<Reference>(reference, held)?;
        self.cut(top - 2, next);
        Ok(())
    }
}
