// What passes between a machine and a host.
use crate::text::Text;
use bytecode::kind::Kind;
use bytecode::stop::HostFault;

/// An argument of a call: a word, or a reference, of which a host sees only whether it is null: with no value beside that.
#[derive(Clone, Copy, Debug, PartialEq, Eq)]
pub enum Argument {
    Word(u32),
    Reference { null: bool },
}

/// A call of a native: the index in the host's table, the arguments, the first first, and the texts of the first two
/// reference arguments. An argument that is not there, and a reference to other than a text, has no bytes.
#[derive(Clone, Copy)]
pub struct Call<'a, 't> {
    pub index: u16,
    pub arguments: &'a [Argument],
    pub first: Text<'t>,
    pub second: Text<'t>,
}

/// A host's answer to a call: a word, null, a reference argument by its number among them, or a stop.
// The four are defined side by side, as what a host may say: so a stop is one of them and no error beside them.
#[derive(Clone, Copy, Debug, PartialEq, Eq)]
pub enum Reply {
    Word(u32),
    Null,
    Argument(u8),
    Stop(HostFault),
}

/// What every host replies to arguments that do not fit, and at an index that it has no signature for.
pub const MISFIT: Reply = Reply::Stop(HostFault { code: 0 });

/// The kinds of a native's arguments and of its result.
#[derive(Clone, Copy)]
pub struct Signature<'a> {
    pub arguments: &'a [Kind],
    pub result: Kind,
}
