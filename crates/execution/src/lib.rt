// A program's execution over lent memory: its frames, their slots and the blocks; and every instruction but the call of a native.
#![tactic(auto)]

ghost use Rattle.std.specs.Prelude.{◌≡◌, ◌+◌, ◌-◌, ◌^◌, ◌<◌, ◌≤◌, length, take, drop};
ghost use Rattle.execution.specs.View.{state_of, beginning};

mod blocks;
mod branches;
pub mod calls;
mod execute;
mod look;
mod values;

use crate::calls::reserve;
use cells::memory::Memory;
use heap::{BlockRecord, Cell};
use runtime::FrameRecord;
use stack::Stack;
use std::fmt;

/// Where a program is, and what it has. The newest frame's variables lie in the slots from its base on, and its operand stack
/// behind them, up to the top of `slots`. The calling frames have records. `reserved` counts the slots that all frames reserve.
// No ghost field: `Bounds` holds in every state that an accepted program comes to, and not after any one method. Clauses ask for it.
#[derive(Drop)]
pub struct Execution<'a> {
    frame: FrameRecord,
    slots: Stack<'a, u64>,
    frames: Stack<'a, FrameRecord>,
    reserved: usize,
    memory: Memory<'a>,
}

/// What a frame shows: its function, its place and how many values its operand stack has.
#[derive(Clone, Copy, Debug, PartialEq, Eq)]
pub struct FrameView {
    pub function: usize,
    pub place: usize,
    pub depth: usize,
}

impl fmt::Display for FrameView {
    fn fmt<W: fmt::Write>(&self, f: &mut fmt::Formatter<W>) -> fmt::Result {
        write!(f, "frame {} {} {}", self.function, self.place, self.depth)
    }
}

/// The lent memory of an execution.
#[derive(Drop)]
pub struct Lent<'a> {
    pub slots: &'a mut [u64],
    pub frames: &'a mut [FrameRecord],
    pub cells: &'a mut [Cell],
    pub records: &'a mut [BlockRecord],
}

impl<'a> Execution<'a> {
    /// Main's frame alone, at place 0 with an empty stack, and no block.
    pub fn new(variables: usize, memory: Lent<'a>) -> Execution<'a>
        requires few { variables ≤ 32 }
        requires room { variables + 32 ≤ length memory.slots.now }
        requires cells { (length memory.cells.now < 2 ^ 28) × (length memory.records.now < 2 ^ 31) }
        ensures { state_of result ≡ beginning variables memory.entry }
    {
        let Lent {
            slots,
            frames,
            cells,
            records,
        } = memory;
        let mut slots = Stack::new(slots);
        slots.resize(variables);
        Execution {
            frame: FrameRecord::default(),
            slots,
            frames: Stack::new(frames),
            reserved: reserve(variables),
            memory: Memory::over(cells, records),
        }
    }

    /// The newest frame's function.
    pub fn function(&self) -> usize
        ensures { result ≡ (state_of self.now).function }
    {
        self.frame.function
    }

    /// The newest frame's place.
    pub fn place(&self) -> usize
        ensures { result ≡ (state_of self.now).place }
    {
        self.frame.place
    }

    /// How many slots are in use.
    pub fn top(&mut self) -> usize
        ensures value { result ≡ (state_of self.old).top }
        ensures same { self.new ≡ self.old }
    {
        self.slots.len()
    }

    /// The slots from one up to another.
    pub fn part(&self, from: usize, to: usize) -> &[u64]
        requires ordered { from ≤ to }
        requires there { to ≤ length (state_of self.now).slots }
        ensures { result.now ≡ take (to - from) (drop from (state_of self.now).slots) }
    {
        self.slots.part(from, to)
    }

    /// Takes an execution apart: the lent memory, as it leaves it.
    pub fn end(self) -> Lent<'a>
        ensures slots { result.slots.now ≡ (state_of self.entry).slots }
        ensures frames { result.frames.now ≡ (state_of self.entry).frames }
        ensures cells { result.cells.now ≡ (state_of self.entry).storage.cells }
        ensures records { result.records.now ≡ (state_of self.entry).storage.records }
    {
        let Execution {
            frame: _,
            slots,
            frames,
            reserved: _,
            memory,
        } = self;
        let (cells, records) = memory.end();
        Lent {
            slots: slots.end(),
            frames: frames.end(),
            cells,
            records,
        }
    }
}
