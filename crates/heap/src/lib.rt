// The cells and block records that the machine's memory is made of.
#![tactic(auto)]

ghost use Rattle.std.specs.Prelude.{◌≡◌, true};
ghost use Rattle.heap.specs.Stands.{Stands};

/// Eight bytes of memory. A marked cell holds the number of a reference.
// The mark stands beside the bytes, as a cell is defined: an enum would hold the same eight bytes in each variant.
#[derive(Clone, Copy, Default, PartialEq, Eq)]
pub struct Cell {
    pub bytes: [u8; 8],
    pub mark: bool,
}

/// Where a block lies: its first cell, and where its data begin and end, in bytes from there.
/// An array's data begin at 8, and it has `count` elements of `size` bytes. Other blocks have data from 0, and count 0.
// Both sorts have one form: an access is tested against `from` and `end` alike, without a question of which sort it is.
#[derive(Clone, Copy, Default, PartialEq, Eq)]
pub struct BlockRecord {
    pub start: u32,
    pub from: u32,
    pub end: u32,
    pub count: u32,
    pub size: u8,
}

/// Its contract is the theorem that memory kept in cells and block records is the checked machine's memory.
pub fn memory_stands() -> bool
    ensures value { result ≡ true }
    ensures theorem { Stands }
{
    true
}
