// A bounded stack over lent memory, for every sort of entry.
#![tactic(auto)]

ghost use Rattle.std.specs.Prelude.{◌≡◌, ◌≤◌, [], length};

mod questions;
mod tested;
mod within;

/// A stack over lent entries: those below its length are held, the last of them is the newest. No more are held than are lent.
///
/// `push`, `pop`, `peek`, `get`, `set` and `truncate` test and refuse. `push_within`, `pop_within`, `at`, `put`, `resize` and
/// `part` are for a machine that knows its bounds: they test nothing, and their callers show that the entry is there.
/// A question takes the stack for writing and promises that nothing changed.
// The room is lent, with no heap that it could grow in: so a length stands beside it. What a call leaves as it was is a clause of the call:
// no field could say it.
#[derive(Drop)]
pub struct Stack<'a, T> {
    room: &'a mut [T],
    len: usize,
    ghost within: { len ≤ length room.now },
}

/// Why a push was refused: there is no room left.
#[derive(Clone, Copy, PartialEq, Eq, Debug)]
pub struct Full;

/// Why a write was refused: there is no such entry.
#[derive(Clone, Copy, PartialEq, Eq, Debug)]
pub struct NoEntry;

impl<'a, T: Copy> Stack<'a, T> {
    ghost use Rattle.stack.specs.Stacks.{entries, held};

    /// An empty stack, with room for as many entries as are lent.
    pub fn new(room: &'a mut [T]) -> Stack<'a, T>
        ensures entries { entries result ≡ room.old }
        ensures len { result.len ≡ 0 }
        ensures held { held result ≡ [] }
    {
        Stack { room, len: 0 }
    }

    /// The lent memory, as the stack leaves it.
    pub fn end(self) -> &'a mut [T]
        ensures { result.now ≡ entries self.entry }
    {
        let Stack { room, len: _ } = self;
        room
    }
}
