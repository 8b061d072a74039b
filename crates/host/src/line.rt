// The line host: a buffer that a program writes text and numbers to.
ghost use Rattle.std.specs.Prelude.{◌≡◌, ◌≤◌, [], length};
ghost use Rattle.std.proofs.Common.{to_z};
ghost use Rattle.std.specs.Int.{w32};
ghost use Rattle.host.specs.Lines.{Line as LineState, line_host, line_replies, line_becomes, longer, write as writing, in_tens};
ghost use Rattle.host.specs.Lawfulness.{line_lawful};

use crate::Host;
use crate::call::{Argument, Call, MISFIT, Reply, Signature};
use crate::tens::{ROOM, write_number};
use crate::text::Text;
use bytecode::kind::Kind;
use bytecode::stop::HostFault;

// The native `print`: a text.
const PRINT: Signature<'static> = Signature {
    arguments: &[Kind::Reference],
    result: Kind::Word,
};

// The native `printint`: a word.
const PRINT_INT: Signature<'static> = Signature {
    arguments: &[Kind::Word],
    result: Kind::Word,
};

// The native `pick`: two texts.
const PICK: Signature<'static> = Signature {
    arguments: &[Kind::Reference, Kind::Reference],
    result: Kind::Reference,
};

// The reply where bytes do not fit.
const NO_ROOM: Reply = Reply::Stop(HostFault { code: 3 });

/// A host that writes to a lent buffer; bytes below its length are written.
// The buffer is lent, since there is no heap that a text could grow in.
#[derive(Drop)]
pub struct Line<'a> {
    room: &'a mut [u8],
    len: usize,
    ghost within: { len ≤ length room.now },
}

// The longer of two texts, the first if they are equally long.
fn pick(first: Text<'_>, second: Text<'_>) -> Reply
    ensures { result ≡ longer first.entry.bytes.now second.entry.bytes.now }
{
    if first.bytes.len() < second.bytes.len() {
        Reply::Argument(1)
    } else {
        Reply::Argument(0)
    }
}

impl<'a> Line<'a> {
    ghost use Rattle.host.specs.View.{line_of};

    /// Nothing is written yet.
    pub fn new(room: &'a mut [u8]) -> Line<'a>
        ensures { line_of result ≡ record { room = length room.old; written = [] } }
    {
        Line { room, len: 0 }
    }

    /// The bytes written so far.
    pub fn written(&self) -> &[u8]
        ensures { result.now ≡ (line_of self.now).written }
    {
        &self.room[..self.len]
    }

    // Writes bytes behind those written before; refused, and nothing written, where they do not fit.
    fn write(&mut self, bytes: &[u8]) -> Reply
        ensures reply { result ≡ line_replies (line_of self.old) (writing bytes.now) }
        ensures after { line_of self.new ≡ line_becomes (line_of self.old) (writing bytes.now) }
    {
        let end = self.len + bytes.len();
        if self.room.len() < end {
            return NO_ROOM;
        }
        self.room[self.len..end].copy_from_slice(bytes);
        self.len = end;
        Reply::Word(0)
    }

    fn print_int(&mut self, word: u32) -> Reply
        ensures reply { result ≡ line_replies (line_of self.old) (writing (in_tens (to_z w32 word))) }
        ensures after { line_of self.new ≡ line_becomes (line_of self.old) (writing (in_tens (to_z w32 word))) }
    {
        let mut digits = [0; ROOM];
        self.write(write_number(&mut digits, word.cast_signed()))
    }
}

impl<'a> Host for Line<'a> {
    ghost use Rattle.host.specs.View.{line_of};

    ghost State = { LineState };

    ghost state = { line_of };

    ghost make = { line_host };

    ghost lawful = { line_lawful };

    fn signature(&self, index: u16) -> Option<Signature<'_>> {
        match index {
            16 => Some(PRINT),
            17 => Some(PRINT_INT),
            18 => Some(PICK),
            _ => None,
        }
    }

    fn call(&mut self, call: Call<'_, '_>) -> Reply {
        match (call.index, call.arguments) {
            (16, [Argument::Reference { .. }]) => self.write(call.first.bytes),
            (17, [Argument::Word(word)]) => self.print_int(*word),
            (18, [Argument::Reference { .. }, Argument::Reference { .. }]) => pick(
                call.first,
                call.second,
            ),
            _ => MISFIT,
        }
    }
}
