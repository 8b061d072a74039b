// The drive host: 32 words that a program reads and writes.
ghost use Rattle.std.specs.Prelude.{◌≡◌, ℕ, List, replicate, if◌then◌else◌, nat_lt, slice_set};
ghost use Rattle.host.specs.Drives.{drive_host, reading};
ghost use Rattle.host.specs.Lawfulness.{drive_lawful};

use crate::Host;
use crate::call::{Argument, Call, MISFIT, Reply, Signature};
use bytecode::kind::Kind;
use bytecode::stop::HostFault;

// The native `get`: an index.
const GET: Signature<'static> = Signature {
    arguments: &[Kind::Word],
    result: Kind::Word,
};

// The native `set`: an index, and a word.
const SET: Signature<'static> = Signature {
    arguments: &[Kind::Word, Kind::Word],
    result: Kind::Word,
};

// The reply to an index outside 0 to 31.
const OUTSIDE: Reply = Reply::Stop(HostFault { code: 1 });

/// A host that keeps 32 words, which a program reads and writes by their index.
#[derive(Drop)]
pub struct Drive {
    words: [u32; 32],
}

impl Drive {
    /// All words are zero.
    pub fn new() -> Drive
        ensures { result.words ≡ replicate 32 0 }
    {
        Drive { words: [0; 32] }
    }

    /// The words as they are.
    pub fn words(&self) -> &[u32]
        ensures { result.now ≡ self.now.words }
    {
        &self.words
    }

    fn get(&self, i: u32) -> Reply
        ensures { result ≡ reading self.now.words i }
    {
        if i < 32 {
            Reply::Word(self.words[i as usize])
        } else {
            OUTSIDE
        }
    }

    fn set(&mut self, i: u32, word: u32) -> Reply
        ensures reply { result ≡ reading self.old.words i }
        ensures words { self.new.words ≡ (if nat_lt i 32 then slice_set self.old.words i word else self.old.words) }
    {
        let old = self.get(i);
        if i < 32 {
            self.words[i as usize] = word;
        }
        old
    }
}

impl Host for Drive {
    ghost State = { List ℕ };

    ghost state = { λ drive. drive.words };

    ghost make = { drive_host };

    ghost lawful = { drive_lawful };

    fn signature(&self, index: u16) -> Option<Signature<'_>> {
        match index {
            0 => Some(GET),
            1 => Some(SET),
            _ => None,
        }
    }

    fn call(&mut self, call: Call<'_, '_>) -> Reply {
        match (call.index, call.arguments) {
            (0, [Argument::Word(i)]) => self.get(*i),
            (1, [Argument::Word(i), Argument::Word(word)]) => self.set(*i, *word),
            _ => MISFIT,
        }
    }
}
