// The machine: runs an accepted program over lent memory, a number of steps at a time.
#![tactic(auto)]

ghost use Rattle.std.specs.Prelude.{◌≡◌};
ghost use Rattle.bytecode.specs.Outcome.{report};
ghost use Rattle.execution.specs.View.{state_of};
ghost use Rattle.reader.specs.View.{program_of};
ghost use Rattle.ready.specs.Ready.{Ready};

mod fetch;
mod run;
pub mod sizes;
mod start;
mod step;

use bytecode::refusal::Report;
use bytecode::stop::Stop;
use execution::Execution;
use reader::package::Package;
use std::fmt;

/// An accepted program and where its execution is, over lent memory. It lives, or it is over: ended or stopped.
/// What its next step relies on is always there. It stands truncated: a ghost field holds facts with one proof at most.
#[derive(Drop)]
pub struct Machine<'p, 'm> {
    program: Package<'p>,
    execution: Execution<'m>,
    condition: Condition,
    ghost ready: { ∥ Ready (program_of program) (state_of execution) ∥₁ },
}

/// Whether a machine lives, has ended with main's word, or has stopped: three states with names, of which none is an absence or a failure.
#[derive(Clone, Copy)]
enum Condition {
    Live,
    Ended(u32),
    Stopped(Stop),
}

/// What a run came to, and the steps that it used. A stop stands at a function and a place.
#[derive(Clone, Copy, Debug, PartialEq, Eq)]
pub enum Outcome {
    Continues {
        steps: u32,
    },
    Ended {
        word: u32,
        steps: u32,
    },
    Stopped {
        stop: Stop,
        function: usize,
        place: usize,
        steps: u32,
    },
}

impl fmt::Display for Outcome {
    fn fmt<W: fmt::Write>(&self, f: &mut fmt::Formatter<W>) -> fmt::Result {
        match self {
            Outcome::Continues { steps } => write!(f, "continues {steps}"),
            Outcome::Ended { word, steps } => write!(f, "ended {} {steps}", word.cast_signed()),
            Outcome::Stopped {
                stop,
                function,
                place,
                steps,
            } => {
                let number = stop.number();
                let code = stop.code();
                write!(f, "stopped {number} {code} {function} {place} {steps}")
            }
        }
    }
}

// Each call can refuse for one reason alone, so each has a refusal of its own.
/// Why sizes were refused (30).
#[derive(Clone, Copy, Debug, PartialEq, Eq)]
pub struct SizesRefused;

/// Why a run was refused: the machine is over (32).
#[derive(Clone, Copy, Debug, PartialEq, Eq)]
pub struct Over;

/// Why a look was refused: there is no such frame (33).
#[derive(Clone, Copy, Debug, PartialEq, Eq)]
pub struct NoFrame;

impl From<SizesRefused> for Report {
    ghost use Rattle.machine.specs.View.{sizes_fault};

    ghost from_gives = { λ refused r. r ≡ report (sizes_fault refused) };

    fn from(_refused: SizesRefused) -> Report {
        numbered(30)
    }
}

impl From<Over> for Report {
    ghost use Rattle.machine.specs.View.{over_fault};

    ghost from_gives = { λ refused r. r ≡ report (over_fault refused) };

    fn from(_refused: Over) -> Report {
        numbered(32)
    }
}

impl From<NoFrame> for Report {
    ghost use Rattle.machine.specs.View.{no_frame_fault};

    ghost from_gives = { λ refused r. r ≡ report (no_frame_fault refused) };

    fn from(_refused: NoFrame) -> Report {
        numbered(33)
    }
}

// A refusal with a number and no place: a `From` takes one value alone, and three would hold the same record.
fn numbered(number: u8) -> Report
    ensures { result ≡ report (number, 0, 0) }
{
    Report {
        number,
        first: 0,
        second: 0,
    }
}
