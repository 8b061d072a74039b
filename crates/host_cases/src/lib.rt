// A third host, beside those that the library has, and cases for all three.
#![tactic(auto)]

ghost use Rattle.std.specs.Prelude.{ℕ};
ghost use Rattle.host_cases.specs.Counter.{counter_host, counter_lawful};

use bytecode::kind::Kind;
use host::Host;
use host::call::{Argument, Call, MISFIT, Reply, Signature};

#[cfg(test)]
mod tests;

// The native `add`: a word.
const ADD: Signature<'static> = Signature {
    arguments: &[Kind::Word],
    result: Kind::Word,
};

/// A host that adds up the words that it is given, and answers the sum.
#[derive(Drop)]
pub struct Counter {
    pub sum: u32,
}

impl Host for Counter {
    ghost State = { ℕ };

    ghost state = { λ counter. counter.sum };

    ghost make = { counter_host };

    ghost lawful = { counter_lawful };

    fn signature(&self, index: u16) -> Option<Signature<'_>> {
        (index == 7).then_some(ADD)
    }

    fn call(&mut self, call: Call<'_, '_>) -> Reply {
        match (call.index, call.arguments) {
            (7, [Argument::Word(w)]) => {
                self.sum = self.sum.wrapping_add(*w);
                Reply::Word(self.sum)
            }
            _ => MISFIT,
        }
    }
}
