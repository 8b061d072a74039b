// Bytes with their places, read from raw bytes or from hex text, and how they are loaded to lent memory.
#![tactic(auto)]

ghost use Rattle.std.specs.Prelude.{◌≡◌};
ghost use Rattle.source.specs.Rest.{Rest, next_of, after_next, place_of};

pub mod hex;
pub mod loader;
pub mod raw;

/// A source gives bytes one by one, and tells the place of each: it means `rest`, the bytes that are to come, each with its
/// place, and then an end or a fault.
pub trait Source {
    /// Where a byte stands, of the source's own sort.
    type Place: Drop;
    /// Why the bytes cannot be read on.
    type Fault: Drop;

    ghost rest: { Self → Rest Self.Place Self.Fault };

    /// Drops and answers the first byte to come; where there is none, always the end or the fault.
    fn next(&mut self) -> Result<Option<u8>, Self::Fault>
        ensures value { result ≡ next_of (rest self.old) }
        ensures after { rest self.new ≡ after_next (rest self.old) };

    /// The place of the first byte to come, if there is one.
    fn place(&self) -> Option<Self::Place>
        ensures { result ≡ place_of (rest self.now) };
}
