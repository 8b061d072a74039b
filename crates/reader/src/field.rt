// Reading the fields of a package, one after another.
ghost use Rattle.std.specs.Prelude.{◌≡◌, ◌+◌, ◌<◌, ◌≤◌, drop, length, IfOk, OnErr, OnOk};
ghost use Rattle.bytecode.specs.Outcome.{told, same};
ghost use Rattle.bytecode.specs.declared.refusal.Refusal.TheVariants.{Field};
ghost use Rattle.reader.specs.Fields.{byte_at, two_at, bytes_at};

use bytecode::refusal::{FieldFault, Refusal};

// The refusal of a field or a record.
pub(crate) fn refused(fault: FieldFault, offset: usize) -> Refusal
    ensures { result ≡ Field fault offset }
{
    Refusal::Field { fault, offset }
}

// The bytes of a package, and the offset up to which they are read. A field that is cut leaves it where it is. That the bytes stay the
// same is a clause of each method: no field could say what a call leaves.
#[derive(Drop)]
pub(crate) struct Cursor<'a> {
    bytes: &'a [u8],
    offset: usize,
    ghost within: { offset ≤ length bytes.now },
}

impl<'a> Cursor<'a> {
    // A cursor at an offset.
    pub(crate) fn new(bytes: &'a [u8], offset: usize) -> Self
        requires { offset ≤ length bytes.now }
        ensures lent { result.bytes.now ≡ bytes.now }
        ensures at { result.offset ≡ offset }
    {
        Cursor { bytes, offset }
    }

    pub(crate) fn offset(&self) -> usize
        ensures { result ≡ self.now.offset }
    {
        self.offset
    }

    // What is not read.
    pub(crate) fn rest(&self) -> &'a [u8]
        ensures met { result.now ≡ drop self.now.offset self.now.bytes.now }
        ensures long { length result.now + self.now.offset ≡ length self.now.bytes.now }
    {
        &self.bytes[self.offset..]
    }

    // So many bytes.
    pub(crate) fn block(&mut self, size: usize) -> Result<&'a [u8], Refusal>
        ensures met { bytes_at self.old.bytes.now self.old.offset size ≡ told (λ block. block.now) result }
        ensures lent { self.new.bytes.now ≡ self.old.bytes.now }
        ensures moved { OnOk result (self.new.offset ≡ self.old.offset + size) }
        ensures long { IfOk result (λ block. length block.now ≡ size) }
        ensures cut { OnErr result (length self.old.bytes.now < self.old.offset + size) }
    {
        let rest = self.rest();
        if size > rest.len() {
            return Err(refused(FieldFault::Cut, self.offset));
        }
        self.offset += size;
        Ok(&rest[..size])
    }

    pub(crate) fn byte(&mut self) -> Result<u8, Refusal>
        ensures met { byte_at self.old.bytes.now self.old.offset ≡ told same result }
        ensures lent { self.new.bytes.now ≡ self.old.bytes.now }
        ensures moved { OnOk result (self.new.offset ≡ self.old.offset + 1) }
    {
        let block = self.block(1)?;
        Ok(block[0])
    }

    // Two bytes, the most significant first.
    pub(crate) fn pair(&mut self) -> Result<u16, Refusal>
        ensures met { two_at self.old.bytes.now self.old.offset ≡ told same result }
        ensures lent { self.new.bytes.now ≡ self.old.bytes.now }
        ensures moved { OnOk result (self.new.offset ≡ self.old.offset + 2) }
    {
        let block = self.block(2)?;
        Ok(u16::from_be_bytes([block[0], block[1]]))
    }
}
