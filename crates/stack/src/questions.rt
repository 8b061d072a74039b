// What a stack can be asked. Nothing changes.
ghost use Rattle.std.specs.Prelude.{◌≡◌, ◌-◌, ◌<◌, ◌≤◌, slice_index_or, slice_range};
ghost use Rattle.std.specs.List.{slice_get};
ghost use Rattle.stack.specs.Stacks.{entries, limit, stored, held};

use crate::Stack;

impl<'a, T: Copy> Stack<'a, T> {
    // What is held, the oldest first.
    fn stored(&self) -> &[T]
        ensures { result.now ≡ stored self.now }
    {
        &self.room[..self.len]
    }

    /// How many entries are held.
    pub fn len(&mut self) -> usize
        ensures value { result ≡ self.old.len }
        ensures same { self.new ≡ self.old }
    {
        self.len
    }

    /// How many more entries there is room for.
    pub fn left(&mut self) -> usize
        ensures value { result ≡ limit self.old - self.old.len }
        ensures same { self.new ≡ self.old }
    {
        self.room.len() - self.len
    }

    /// The entry at a depth, the newest at 0.
    pub fn peek(&mut self, depth: usize) -> Option<T>
        ensures value { result ≡ slice_get (held self.old) depth }
        ensures same { self.new ≡ self.old }
    {
        self.stored().iter().rev().nth(depth).copied()
    }

    /// The entry at a position, the oldest at 0.
    pub fn get(&mut self, i: usize) -> Option<T>
        ensures value { result ≡ slice_get (stored self.old) i }
        ensures same { self.new ≡ self.old }
    {
        self.stored().get(i).copied()
    }

    /// The lent entry at a position, held or not.
    pub fn at(&mut self, i: usize) -> T
        requires there { i < limit self.old }
        ensures value { (d : T) → result ≡ slice_index_or (entries self.old) i d }
        ensures same { self.new ≡ self.old }
    {
        self.room[i]
    }

    /// The lent entries from a position up to another, for reading.
    pub fn part(&self, from: usize, to: usize) -> &[T]
        requires ordered { from ≤ to }
        requires there { to ≤ limit self.now }
        ensures { result.now ≡ slice_range (entries self.now) from to }
    {
        &self.room[from..to]
    }
}
