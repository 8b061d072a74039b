// Places of code, for refusals.
ghost use Rattle.std.specs.Prelude.{◌≡◌, MatchResult};
ghost use Rattle.shapes.specs.Acts.{met_at};

use bytecode::refusal::{CodeFault, Refusal};

/// A place of a function's code.
#[derive(Clone, Copy)]
pub(crate) struct Site {
    pub(crate) function: usize,
    pub(crate) place: usize,
}

impl Site {
    pub(crate) fn refusal(self, fault: CodeFault) -> Refusal
        ensures { result ≡ Refusal.Code fault self.function self.place }
    {
        Refusal::Code {
            fault,
            function: self.function,
            place: self.place,
        }
    }

    // The refusal of a shape that comes from this place and meets another. Stacks that differ are a fault of the place met.
    fn meeting_refusal(self, met: usize, fault: CodeFault) -> Refusal
        ensures { result ≡ Refusal.Code fault self.function (met_at self.place met fault) }
    {
        match fault {
            CodeFault::StacksDiffer => Site { place: met, ..self }.refusal(fault),
            _ => self.refusal(fault),
        }
    }

    /// An answer, its fault at this place. It stands apart from where `?` is used: in longer functions the facts of a `map_err` are lost.
    pub(crate) fn answer(self, answer: Result<(), CodeFault>) -> Result<(), Refusal>
        ensures { MatchResult answer (λ x. result ≡ Ok x) (λ e. result ≡ Err (Refusal.Code e self.function self.place)) }
    {
        answer.map_err(|fault| self.refusal(fault))
    }

    /// An answer to a shape that comes from this place and meets another.
    pub(crate) fn meeting(self, met: usize, answer: Result<(), CodeFault>) -> Result<(), Refusal>
        ensures { MatchResult answer (λ x. result ≡ Ok x) (λ e. result ≡ Err (Refusal.Code e self.function (met_at self.place met e))) }
    {
        answer.map_err(|fault| self.meeting_refusal(met, fault))
    }
}
