// Hosts: what answers the natives of a program, and two of them.
#![tactic(auto)]

ghost use Rattle.std.specs.Prelude.{◌≡◌};
ghost use Rattle.std.specs.Option.{option_map};
ghost use Rattle.host.specs.Hosts.{Host as Make, Lawful};
ghost use Rattle.host.specs.View.{call_of, signature_of};

pub mod call;
pub mod drive;
pub mod line;
mod tens;
pub mod text;

use call::{Call, Reply, Signature};

/// A host answers the natives of a program. Its make says, for each state, what a call is answered and which state comes
/// next; two hosts are twins where they are of one make and in equal states.
pub trait Host {
    // the states that the make knows
    ghost State: { Type 0 };

    // the state that a host is in
    ghost state: { Self → State };

    ghost make: { Make State };

    /// The kinds of arguments and result for a table index. It follows from the make and the index alone.
    fn signature(&self, index: u16) -> Option<Signature<'_>>
        ensures { option_map signature_of result ≡ make.signs index };

    /// Answers a call.
    fn call(&mut self, call: Call<'_, '_>) -> Reply
        ensures reply { result ≡ make.replies (state self.old) (call_of call.entry) }
        ensures after { state self.new ≡ make.becomes (state self.old) (call_of call.entry) };

    // the make keeps the laws
    ghost lawful: { Lawful make };
}
