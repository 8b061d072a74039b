// Kinds of values.
use std::fmt;

/// The kind of a stack entry or a variable: a 32-bit word, or a reference.
/// `Unknown` is in words "none": a variable that no kind is known of. No stack entry of an accepted program has it.
// A case, and no optional kind: hosts' signatures and calls that take a kind would take less, and a record of the table 144 bytes for 80.
#[derive(Clone, Copy, Debug, PartialEq, Eq)]
pub enum Kind {
    Unknown,
    Word,
    Reference,
}

/// Its letter in listings.
impl fmt::Display for Kind {
    fn fmt<W: fmt::Write>(&self, f: &mut fmt::Formatter<W>) -> fmt::Result {
        f.write_str(match self {
            Kind::Unknown => "-",
            Kind::Word => "w",
            Kind::Reference => "a",
        })
    }
}
