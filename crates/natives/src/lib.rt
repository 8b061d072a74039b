// Calls of natives: whether the host's signature is the sheet's, what the host is told, and its reply.
#![tactic(auto)]

ghost use Rattle.std.specs.Prelude.{◌≡◌, ◌<◌, ◌≤◌, length, take};
ghost use Rattle.std.specs.Option.{option_map};
ghost use Rattle.plan.specs.Programs.{nth};
ghost use Rattle.plan.specs.Shapes.{eq_kinds};
ghost use Rattle.reader.specs.View.{program_of, native_in};
ghost use Rattle.host.specs.View.{signature_of, text_of as text_shown};
ghost use Rattle.checked.specs.Machine.{agrees as agreeing};
ghost use Rattle.runtime.specs.Runtime.{argument_of, arguments_from, numbers_from, text_in};

use bytecode::kind::Kind;
use host::Host;
use host::call::{Argument, Call, Reply, Signature};
use host::text::{Text, find_text};
use reader::package;
use reader::package::Package;

// How many words there are. The numbers of texts are below this, those of blocks are not.
const WORDS: u64 = 1 << 32;

/// A native of a program, which may be called.
#[derive(Clone, Copy)]
pub struct Callee<'r, 'p> {
    pub program: &'r Package<'p>,
    pub native: usize,
    pub ghost there: { native < length (program_of program.now).natives },
}

/// A call of a native, with its arguments in these slots.
#[derive(Clone, Copy)]
pub struct NativeCall<'r, 'p, 's> {
    pub callee: Callee<'r, 'p>,
    pub slots: &'s [u64],
    pub ghost all: { length slots.now ≡ length (native_in (program_of callee.program.now) callee.native).signature.arguments },
}

// What a host is told of one argument.
fn argument(kind: Kind, slot: u64) -> Argument
    ensures { result ≡ argument_of kind slot }
{
    match kind {
        // A cast must lose nothing, and no method takes the low half of a number.
        Kind::Word => Argument::Word((slot % WORDS) as u32),
        Kind::Unknown | Kind::Reference => Argument::Reference { null: slot == 0 },
    }
}

// The text of a reference, by its number.
fn text_of(strings: &[u8], number: Option<u64>) -> Text<'_>
    ensures { text_shown result ≡ text_in strings.now number }
{
    match number {
        Some(n @ 1..WORDS) => find_text(strings, (n - 1) as usize),
        _ => Text::NONE,
    }
}

impl<'p> Callee<'_, 'p> {
    ghost use Rattle.reader.specs.Entries.{signature_of as kinds_in};
    ghost use Rattle.natives.specs.Calls.{native_of};

    // What the sheet says that the native takes and gives.
    #[tactic(auto, using(crate::proofs::Gathering::few_arguments))]
    fn signature(&self) -> package::Signature<'p>
        ensures met { kinds_in result ≡ (native_of self.now).signature }
        ensures few { length (native_of self.now).signature.arguments ≤ 4 }
    {
        self.program.native_signature(self.native)
    }

    // Whether the kinds are those of the native's arguments.
    #[tactic(auto, using(crate::proofs::Gathering::lengths_differ))]
    fn takes(&self, kinds: &[Kind]) -> bool
        ensures { result ≡ eq_kinds (native_of self.now).signature.arguments kinds.now }
    {
        let signature = self.signature();
        kinds.len() == signature.argument_count()
            && kinds
                .iter()
                .enumerate()
                .all(|(i, kind)| signature.argument_kind(i) == *kind)
    }

    /// Whether a host's signature is the one that the sheet gives the native.
    pub fn agrees(&self, signed: Option<Signature<'_>>) -> bool
        ensures { result ≡ agreeing (native_of self.now).signature (option_map signature_of signed.entry) }
    {
        match signed {
            Some(signature) => {
                self.signature().result_kind() == signature.result
                    && self.takes(signature.arguments)
            }
            None => false,
        }
    }
}

impl NativeCall<'_, '_, '_> {
    ghost use Rattle.natives.specs.Calls.{native_of, call_with};

    // What a host is told of the arguments, the first first.
    #[tactic(auto, using(crate::proofs::Gathering::arguments_all))]
    fn told(&self) -> [Argument; 4]
        ensures { take (length self.now.slots.now) result ≡ arguments_from (native_of self.now.callee).signature.arguments self.now.slots.now 0 }
    {
        let signature = self.callee.signature();
        let mut told = [Argument::Word(0); 4];
        // By index: of what is written through a zip of `iter_mut` no proof knows anything. There is no heap: a native has at most four arguments.
        for (i, slot) in self.slots.iter().enumerate() {
            told[i] = argument(signature.argument_kind(i), *slot);
        }
        told
    }

    /// The number of a reference argument, by its position among these.
    pub fn reference(&self, position: usize) -> Option<u64>
        ensures { result ≡ nth (numbers_from (native_of self.now.callee).signature.arguments self.now.slots.now 0) position }
    {
        let signature = self.callee.signature();
        self.slots
            .iter()
            .enumerate()
            .filter(|(i, _)| signature.argument_kind(*i) == Kind::Reference)
            .map(|(_, slot)| *slot)
            .nth(position)
    }

    /// Calls the host with the arguments.
    #[tactic(auto, using(crate::proofs::Gathering::few_arguments, crate::proofs::Gathering::told_length))]
    pub fn call<H: Host>(&self, host: &mut H) -> Reply
        ensures reply { result ≡ H.Host.make.replies (H.Host.state host.old) (call_with (program_of self.now.callee.program.now) (native_of self.now.callee) self.now.slots.now) }
        ensures after { H.Host.state host.new ≡ H.Host.make.becomes (H.Host.state host.old) (call_with (program_of self.now.callee.program.now) (native_of self.now.callee) self.now.slots.now) }
    {
        let callee = self.callee;
        let told = self.told();
        let strings = callee.program.string_bytes();
        host.call(Call {
            index: callee.program.native_index(callee.native),
            arguments: &told[..self.slots.len()],
            first: text_of(strings, self.reference(0)),
            second: text_of(strings, self.reference(1)),
        })
    }
}
