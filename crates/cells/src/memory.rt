// The memory, and the memory instructions on it. References are numbers: 0 is null, p + 1 is text p, (b + 1) * 2^32 + o is offset o of block b.
// An enum would need more room than a slot of 64 bits, in which words lie too.
ghost use Rattle.std.specs.Prelude.{◌≡◌, ◌+◌, ◌-◌, ◌*◌, ◌^◌, ◌<◌, ◌≤◌, true, length};
ghost use Rattle.heap.specs.Storage.{Sound, Known, Bounded, by_sort, block_of, offset_of, record_in, new_single, new_array, array_at, array_length, add_index, add_field, locate, taken, has_room};
ghost use Rattle.heap.specs.Relation.{Names};
ghost use Rattle.bytecode.specs.Stops.{gives, stops};
ghost use Rattle.bytecode.specs.declared.stop.Stop.TheVariants.{Null};

use crate::content::{Content, array_header};
use bytecode::stop::Stop;
use heap::{BlockRecord, Cell};

/// How many numbers each block's references have.
const OFFSETS: u64 = 1 << 32;

/// Lent cells and block records, of which the first `used` and `count` are in use. They are lent, so that the counts stand beside them.
#[derive(Drop)]
pub struct Memory<'a> {
    pub cells: &'a mut [Cell],
    pub used: usize,
    pub records: &'a mut [BlockRecord],
    pub count: usize,
    pub ghost sound: { Sound (record { cells = cells.now; used = used; records = records.now; count = count }) },
}

/// Where a reference to a block points: the block's record, and an offset in bytes.
struct Address {
    block: BlockRecord,
    offset: u64,
}

// That a number names a block that there is depends on the memory: a clause of each call says it, and no type of numbers could. What a call
// keeps is a clause of each call too.
impl<'a> Memory<'a> {
    ghost use Rattle.cells.specs.View.{storage_of, attempt_of, leaves, allocates, load, store, Kept, Given};

    /// A memory without blocks.
    pub fn over(cells: &'a mut [Cell], records: &'a mut [BlockRecord]) -> Memory<'a>
        requires { (length cells.old < 2 ^ 28) × (length records.old < 2 ^ 31) }
        ensures value { storage_of result ≡ record { cells = cells.old; used = 0; records = records.old; count = 0 } }
    {
        Memory {
            cells,
            used: 0,
            records,
            count: 0,
        }
    }

    /// Takes a memory apart: the lent cells and block records, as it leaves them.
    pub fn end(self) -> (&'a mut [Cell], &'a mut [BlockRecord])
        ensures cells { result.0.now ≡ (storage_of self.entry).cells }
        ensures records { result.1.now ≡ (storage_of self.entry).records }
    {
        let Memory {
            cells,
            used: _,
            records,
            count: _,
        } = self;
        (cells, records)
    }

    /// How many more cells there are.
    pub fn left(&self) -> usize
        ensures { result ≡ length (storage_of self.now).cells - self.now.used }
    {
        self.cells.len() - self.used
    }

    /// Where a block's reference points. Null stops, and a text stops as told.
    fn address(&self, r: u64, text: Stop) -> Result<Address, Stop>
        requires { Known self.now.count r }
        ensures { attempt_of result ≡ by_sort r (stops Null) (stops text) (gives (record { block = record_in (storage_of self.now) (block_of r); offset = offset_of r })) }
    {
        if r == 0 {
            return Err(Stop::Null);
        }
        if r < OFFSETS {
            return Err(text);
        }
        Ok(Address {
            block: self.records[(r / OFFSETS - 1) as usize],
            offset: r % OFFSETS,
        })
    }

    /// The record of an array, from a reference to its offset 0.
    fn array(&self, r: u64) -> Result<BlockRecord, Stop>
        requires { Known self.now.count r }
        ensures { attempt_of result ≡ array_at (storage_of self.now) r }
    {
        let Address { block, offset } = self.address(r, Stop::Array)?;
        if block.from == 0 || offset != 0 {
            return Err(Stop::Array);
        }
        Ok(block)
    }

    /// arraylength
    pub fn array_length(&self, r: u64) -> Result<u32, Stop>
        requires known { Known self.now.count r }
        ensures { attempt_of result ≡ array_length (storage_of self.now) r }
    {
        Ok(self.array(r)?.count)
    }

    /// aadds
    pub fn add_index(&self, r: u64, i: u32) -> Result<u64, Stop>
        requires known { Known self.now.count r }
        ensures value { attempt_of result ≡ add_index (storage_of self.now) r i }
        ensures named { Names self.now.count (attempt_of result) }
    {
        let b = self.array(r)?;
        if i >= b.count {
            return Err(Stop::Bounds);
        }
        Ok(r + (8 + i as u64 * b.size as u64))
    }

    /// aaddf
    pub fn add_field(&self, r: u64, f: u8) -> Result<u64, Stop>
        requires known { Known self.now.count r }
        ensures value { attempt_of result ≡ add_field (storage_of self.now) r f }
        ensures named { Names self.now.count (attempt_of result) }
    {
        let Address { block, offset } = self.address(r, Stop::Text)?;
        if offset + f as u64 > block.end as u64 {
            return Err(Stop::Bounds);
        }
        Ok(r + f as u64)
    }

    /// The index of the cell that an access to `k` bytes goes to.
    fn locate(&self, r: u64, k: u64) -> Result<usize, Stop>
        requires known { Known self.now.count r }
        requires width { (0 < k) × (k ≤ 8) }
        ensures value { attempt_of result ≡ locate (storage_of self.now) r k }
        ensures inside { Given (λ j. j < self.now.used) (attempt_of result) }
    {
        let Address { block, offset } = self.address(r, Stop::Text)?;
        if offset < block.from as u64 || offset + k > block.end as u64 {
            return Err(Stop::Bounds);
        }
        if offset % k != 0 {
            return Err(Stop::Alignment);
        }
        Ok(block.start as usize + (offset / 8) as usize)
    }

    /// imload, cmload or amload, as the content is a word, a byte or a reference
    pub fn load<C: Content>(&self, r: u64) -> Result<C::Value, Stop>
        requires known { Known self.now.count r }
        ensures value { attempt_of result ≡ load C.SIZE C.reads (storage_of self.now) r }
        ensures named { Given (C.known self.now.count) (attempt_of result) }
    {
        let j = self.locate(r, C::SIZE)?;
        let cells = &*self.cells;
        C::read(&cells[j], (r % 8) as usize)
    }

    /// imstore, cmstore or amstore, as the content is a word, a byte or a reference
    pub fn store<C: Content>(&mut self, r: u64, value: C::Value) -> Result<(), Stop>
        requires known { Known self.old.count r }
        requires held { C.known self.old.count value }
        ensures value { leaves result (storage_of self.new) ≡ store C.SIZE (λ c i. C.writes c i value) (storage_of self.old) r }
        ensures kept { Kept result (storage_of self.old) (storage_of self.new) }
        ensures blocks { self.new.count ≡ self.old.count }
    {
        let j = self.locate(r, C::SIZE)?;
        let cells = &mut *self.cells;
        C::write(&mut cells[j], (r % 8) as usize, value)
    }

    /// Whether there are `need` more cells, and one more block record.
    fn has_room(&self, need: usize) -> bool
        ensures { result ≡ has_room (storage_of self.now) need }
    {
        need <= self.left() && self.count < self.records.len()
    }

    /// Takes the next `need` cells, made zero, and the next block record; answers the number of the new block's reference.
    fn take(&mut self, need: usize, block: BlockRecord) -> u64
        requires room { has_room (storage_of self.old) need ≡ true }
        requires bounded { Bounded (self.old.used + need) block }
        ensures value { result ≡ (self.old.count + 1) * 2 ^ 32 }
        ensures after { storage_of self.new ≡ taken (storage_of self.old) need block }
    {
        let at = self.used;
        self.cells[at..at + need].fill(Cell::default());
        self.records[self.count] = block;
        self.used = at + need;
        self.count += 1;
        self.count as u64 * OFFSETS
    }

    /// new
    pub fn new_single(&mut self, s: u8) -> Result<u64, Stop>
        ensures value { allocates result (storage_of self.new) ≡ new_single (storage_of self.old) s }
        ensures kept { Kept result (storage_of self.old) (storage_of self.new) }
        ensures named { Names self.new.count (attempt_of result) }
    {
        let need = (s as usize).div_ceil(8);
        if !self.has_room(need) {
            return Err(Stop::Cells);
        }
        let block = BlockRecord {
            start: self.used as u32,
            from: 0,
            end: s as u32,
            count: 0,
            size: s,
        };
        Ok(self.take(need, block))
    }

    /// newarray
    pub fn new_array(&mut self, s: u8, n: u32) -> Result<u64, Stop>
        ensures value { allocates result (storage_of self.new) ≡ new_array (storage_of self.old) s n }
        ensures kept { Kept result (storage_of self.old) (storage_of self.new) }
        ensures named { Names self.new.count (attempt_of result) }
    {
        if n >= 2147483648 {
            return Err(Stop::Length);
        }
        let end = 8 + n as usize * s as usize;
        let need = end.div_ceil(8);
        if !self.has_room(need) {
            return Err(Stop::Cells);
        }
        let at = self.used;
        let block = BlockRecord {
            start: at as u32,
            from: 8,
            end: end as u32,
            count: n,
            size: s,
        };
        let r = self.take(need, block);
        self.cells[at] = Cell {
            bytes: array_header(n, s),
            mark: false,
        };
        Ok(r)
    }
}
