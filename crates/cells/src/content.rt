// What instructions load and store: a word, a byte or a reference's number, each in one cell.
ghost use Rattle.std.specs.Prelude.{◌≡◌, ℕ, ◌+◌, ◌≤◌, ◌⊎◌, refl};
ghost use Rattle.std.proofs.Common.{inl, inr};
ghost use Rattle.bytecode.specs.Stops.{Attempt};
ghost use Rattle.heap.specs.declared.Cell.{Cell};
ghost use Rattle.heap.specs.Checked.{header};
ghost use Rattle.heap.specs.Storage.{word_in, byte_in, number_in, word_into, byte_into, number_into, Known, Storage, Sound};
ghost use Rattle.cells.specs.View.{attempt_of, leaves, Unchanged, Given, Naming};
ghost use Rattle.cells.specs.Contents.{word_read, byte_read, number_read, word_written, byte_written, number_written};

use bytecode::stop::Stop;
use heap::Cell;

/// A sort of value that cells hold. `reads` and `writes` say what a cell answers and what it takes, and `known` that a value names
/// no block but those that there are, so many.
pub trait Content {
    type Value: Copy + Drop;

    /// How many bytes a value takes. It lies at a multiple of that.
    const SIZE: u64;

    ghost SIZE: { ℕ };

    ghost reads: { Cell → ℕ → Attempt Self.Value };

    ghost writes: { Cell → ℕ → Self.Value → Attempt Cell };

    ghost known: { ℕ → Self.Value → Type 0 };

    /// The value at a byte of a cell.
    fn read(cell: &Cell, byte: usize) -> Result<Self::Value, Stop>
        requires { byte + SIZE ≤ 8 }
        ensures { attempt_of result ≡ reads cell.now byte };

    /// Puts a value at a byte of a cell, in place: a changed copy that is stored back takes twice as long. A stop changes nothing.
    fn write(cell: &mut Cell, byte: usize, value: Self::Value) -> Result<(), Stop>
        requires { byte + SIZE ≤ 8 }
        ensures value { leaves result cell.new ≡ writes cell.old byte value }
        ensures same { Unchanged result cell.old cell.new };

    // No value crosses the end of a cell.
    ghost sizes: { (SIZE ≡ 1) ⊎ ((SIZE ≡ 4) ⊎ (SIZE ≡ 8)) };

    // What is read names a block that there is, and so does what is written.
    ghost reads_known: { (count : ℕ) (c : Cell) (i : ℕ) → Naming count c → Given (known count) (reads c i) };

    ghost writes_known: { (l : Storage) (c : Cell) (i : ℕ) (v : Self.Value) → Sound l → known l.count v → Given (Naming l.count) (writes c i v) };
}

/// A word in four bytes.
pub struct Word;

impl Content for Word {
    type Value = u32;

    const SIZE: u64 = 4;

    ghost SIZE = { 4 };

    ghost reads = { word_in };

    ghost writes = { word_into };

    ghost known = { λ count v. Unit {0} };

    fn read(cell: &Cell, byte: usize) -> Result<u32, Stop> {
        let bytes = &cell.bytes;
        let word = u32::from_be_bytes([
            bytes[byte],
            bytes[byte + 1],
            bytes[byte + 2],
            bytes[byte + 3],
        ]);
        if cell.mark { Err(Stop::Mark) } else { Ok(word) }
    }

    fn write(cell: &mut Cell, byte: usize, value: u32) -> Result<(), Stop> {
        if cell.mark {
            return Err(Stop::Mark);
        }
        // `copy_from_slice` was tried: the check does not see that it leaves the list of the definition.
        let [first, second, third, fourth] = value.to_be_bytes();
        cell.bytes[byte] = first;
        cell.bytes[byte + 1] = second;
        cell.bytes[byte + 2] = third;
        cell.bytes[byte + 3] = fourth;
        Ok(())
    }

    ghost sizes = { inr (inl refl) };

    ghost reads_known = { word_read };

    ghost writes_known = { word_written };
}

/// A byte, as a word. It is stored as the low seven bits.
pub struct Byte;

impl Content for Byte {
    type Value = u32;

    const SIZE: u64 = 1;

    ghost SIZE = { 1 };

    ghost reads = { byte_in };

    ghost writes = { byte_into };

    ghost known = { λ count v. Unit {0} };

    fn read(cell: &Cell, byte: usize) -> Result<u32, Stop> {
        if cell.mark {
            Err(Stop::Mark)
        } else {
            Ok(cell.bytes[byte] as u32)
        }
    }

    fn write(cell: &mut Cell, byte: usize, value: u32) -> Result<(), Stop> {
        if cell.mark {
            return Err(Stop::Mark);
        }
        cell.bytes[byte] = (value % 128) as u8;
        Ok(())
    }

    ghost sizes = { inl refl };

    ghost reads_known = { byte_read };

    ghost writes_known = { byte_written };
}

/// A reference's number in a whole cell. A marked cell, or one that is all zero, takes it and its mark.
pub struct Reference;

impl Content for Reference {
    type Value = u64;

    const SIZE: u64 = 8;

    ghost SIZE = { 8 };

    ghost reads = { λ c i. number_in c };

    ghost writes = { λ c i v. number_into c v };

    ghost known = { Known };

    fn read(cell: &Cell, _: usize) -> Result<u64, Stop> {
        let number = u64::from_be_bytes(cell.bytes);
        if cell.mark || number == 0 {
            Ok(number)
        } else {
            Err(Stop::Mark)
        }
    }

    fn write(cell: &mut Cell, _: usize, value: u64) -> Result<(), Stop> {
        if !cell.mark && u64::from_be_bytes(cell.bytes) != 0 {
            return Err(Stop::Mark);
        }
        cell.bytes = value.to_be_bytes();
        cell.mark = true;
        Ok(())
    }

    ghost sizes = { inr (inr refl) };

    ghost reads_known = { number_read };

    ghost writes_known = { number_written };
}

/// The bytes of an array's first cell: length and element size, four bytes each.
pub(crate) fn array_header(n: u32, s: u8) -> [u8; 8]
    ensures { result ≡ header n s }
{
    // As the definition has it; an array put together of two would need a lemma on its halves.
    (n as u64 * 4294967296 + s as u64).to_be_bytes()
}
