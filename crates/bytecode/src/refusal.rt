// Why a package is not accepted.
ghost use Rattle.std.specs.Prelude.{◌≡◌};
ghost use Rattle.bytecode.specs.Outcome.{field_number, code_number, shown, report};

use std::fmt;

/// What is wrong with a field of a package or with a record of its sheet, by the number that is reported.
#[derive(Clone, Copy, Debug, PartialEq, Eq)]
pub enum FieldFault {
    Cut = 10,
    Magic = 11,
    Version = 12,
    Limit = 13,
    StringEnd = 14,
    Sheet = 15,
}

/// What is wrong with an instruction, or with the stack and the variables that reach it, by the number that is reported.
#[derive(Clone, Copy, Debug, PartialEq, Eq)]
pub enum CodeFault {
    Opcode = 17,
    TooFew = 18,
    TooMany = 19,
    WrongKind = 20,
    Variable = 21,
    PoolIndex = 22,
    NoStart = 23,
    StacksDiffer = 24,
    Return = 25,
}

/// The first check that a package fails, and where.
#[derive(Clone, Copy, Debug, PartialEq, Eq)]
pub enum Refusal {
    Field {
        fault: FieldFault,
        offset: usize,
    },
    Table,
    Code {
        fault: CodeFault,
        function: usize,
        place: usize,
    },
}

/// A refusal as programs print it: its number, and the two numbers of its place.
#[derive(Clone, Copy, Debug, PartialEq, Eq)]
pub struct Report {
    pub number: u8,
    pub first: usize,
    pub second: usize,
}

// Each sort of fault has numbers of its own in the definitions, so each has this one line.
impl FieldFault {
    fn number(self) -> u8
        ensures { result ≡ field_number self }
    {
        self as u8
    }
}

impl CodeFault {
    fn number(self) -> u8
        ensures { result ≡ code_number self }
    {
        self as u8
    }
}

/// The place is 0 and an offset, 0 and 0, or a function and a place of its code.
impl From<Refusal> for Report {
    ghost from_gives = { λ refusal r. r ≡ report (shown refusal) };

    fn from(refusal: Refusal) -> Report {
        match refusal {
            Refusal::Field { fault, offset } => Report {
                number: fault.number(),
                first: 0,
                second: offset,
            },
            Refusal::Table => Report {
                number: 16,
                first: 0,
                second: 0,
            },
            Refusal::Code {
                fault,
                function,
                place,
            } => Report {
                number: fault.number(),
                first: function,
                second: place,
            },
        }
    }
}

impl fmt::Display for Report {
    fn fmt<W: fmt::Write>(&self, f: &mut fmt::Formatter<W>) -> fmt::Result {
        write!(f, "{} {} {}", self.number, self.first, self.second)
    }
}
