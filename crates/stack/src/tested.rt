// Changes that are tested first, and refused where there is no room or no such entry.
ghost use Rattle.std.specs.Prelude.{◌≡◌, ◌+◌, ◌-◌, min, drop, is_ok, if◌then◌else◌, nat_lt, slice_set};
ghost use Rattle.std.specs.List.{slice_get};
ghost use Rattle.stack.specs.Stacks.{entries, limit, stored, held, pushed, older};

use crate::{Full, NoEntry, Stack};

impl<'a, T: Copy> Stack<'a, T> {
    /// Puts an entry on top; refused where there is no room left.
    pub fn push(&mut self, x: T) -> Result<(), Full>
        ensures answer { is_ok result ≡ nat_lt self.old.len (limit self.old) }
        ensures entries { entries self.new ≡ slice_set (entries self.old) self.old.len x }
        ensures len { self.new.len ≡ (if nat_lt self.old.len (limit self.old) then self.old.len + 1 else self.old.len) }
        ensures held { held self.new ≡ pushed (limit self.old) (held self.old) x }
    {
        if self.len < self.room.len() {
            self.push_within(x);
            Ok(())
        } else {
            Err(Full)
        }
    }

    /// Takes the newest entry off, if there is one.
    pub fn pop(&mut self) -> Option<T>
        ensures value { result ≡ slice_get (held self.old) 0 }
        ensures entries { entries self.new ≡ entries self.old }
        ensures len { self.new.len ≡ self.old.len - 1 }
        ensures held { held self.new ≡ older (held self.old) }
    {
        if self.len == 0 {
            return None;
        }
        Some(self.pop_within())
    }

    /// Writes the entry at a position, the oldest at 0; refused where there is none.
    pub fn set(&mut self, i: usize, x: T) -> Result<(), NoEntry>
        ensures answer { is_ok result ≡ nat_lt i self.old.len }
        ensures entries { entries self.new ≡ (if nat_lt i self.old.len then slice_set (entries self.old) i x else entries self.old) }
        ensures len { self.new.len ≡ self.old.len }
        ensures stored { stored self.new ≡ slice_set (stored self.old) i x }
    {
        if i < self.len {
            self.room[i] = x;
            Ok(())
        } else {
            Err(NoEntry)
        }
    }

    /// Keeps the oldest `n` entries, or all where there are fewer.
    pub fn truncate(&mut self, n: usize)
        ensures entries { entries self.new ≡ entries self.old }
        ensures len { self.new.len ≡ min n self.old.len }
        ensures held { held self.new ≡ drop (self.old.len - n) (held self.old) }
    {
        self.len = self.len.min(n);
    }
}
