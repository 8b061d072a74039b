// Changes that test nothing: the caller shows that the room or the entry is there.
ghost use Rattle.std.specs.Prelude.{◌≡◌, ◌+◌, ◌-◌, ◌<◌, ◌≤◌, slice_index_or, slice_set};
ghost use Rattle.stack.specs.Stacks.{entries, limit};

use crate::Stack;

impl<'a, T: Copy> Stack<'a, T> {
    /// Puts an entry on top, where there is room.
    pub fn push_within(&mut self, x: T)
        requires room { self.old.len < limit self.old }
        ensures entries { entries self.new ≡ slice_set (entries self.old) self.old.len x }
        ensures len { self.new.len ≡ self.old.len + 1 }
    {
        self.room[self.len] = x;
        self.len += 1;
    }

    /// Takes the newest entry off, where there is one.
    pub fn pop_within(&mut self) -> T
        requires some { 0 < self.old.len }
        ensures value { (d : T) → result ≡ slice_index_or (entries self.old) (self.old.len - 1) d }
        ensures entries { entries self.new ≡ entries self.old }
        ensures len { self.new.len ≡ self.old.len - 1 }
    {
        let newest = self.room[self.len - 1];
        self.len -= 1;
        newest
    }

    /// Writes the lent entry at a position, held or not.
    pub fn put(&mut self, i: usize, x: T)
        requires there { i < limit self.old }
        ensures entries { entries self.new ≡ slice_set (entries self.old) i x }
        ensures len { self.new.len ≡ self.old.len }
    {
        self.room[i] = x;
    }

    /// Holds the lent entries below `n` from now on, as they are.
    pub fn resize(&mut self, n: usize)
        requires room { n ≤ limit self.old }
        ensures entries { entries self.new ≡ entries self.old }
        ensures len { self.new.len ≡ n }
    {
        self.len = n;
    }
}
