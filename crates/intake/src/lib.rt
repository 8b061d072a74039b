// How programs take a package in: the bytes that hex text means, and what is printed where there are none.
#![tactic(auto)]

ghost use Rattle.std.specs.Prelude.{◌≡◌, Ok, MatchResult};
ghost use Rattle.bytecode.specs.Outcome.{report, shown};
ghost use Rattle.source.specs.Numbers.{text_shown};
ghost use Rattle.intake.specs.declared.Failure.TheVariants.{Refused, Broken};
ghost use Rattle.intake.specs.Intake.{bytes_of_text, Tells, IsBroken};

use bytecode::refusal::{Refusal, Report};
use source::hex::{HexText, Position, TextFault};
use source::loader::{LIMIT, LoadFault, load};
use std::alloc::{AllocError, Global};
use std::io;
use std::io::Read;

/// How many records the table of a program has: one for each byte of code that a package can have.
pub const RECORDS: usize = 4096;

/// Why a program ends early.
#[derive(Drop)]
pub enum Failure {
    /// The text or the package is refused.
    Refused(Report),
    /// Memory, reading or printing failed.
    Broken(io::Error),
}

impl From<LoadFault<Position, TextFault>> for Failure {
    ghost from_gives = { λ fault f. f ≡ Refused (report (text_shown fault)) };

    fn from(fault: LoadFault<Position, TextFault>) -> Failure {
        Failure::Refused(Report::from(&fault))
    }
}

impl From<Refusal> for Failure {
    ghost from_gives = { λ refusal f. f ≡ Refused (report (shown refusal)) };

    fn from(refusal: Refusal) -> Failure {
        Failure::Refused(Report::from(refusal))
    }
}

impl From<io::Error> for Failure {
    ghost from_gives = { λ error f. f ≡ Broken error };

    fn from(error: io::Error) -> Failure {
        Failure::Broken(error)
    }
}

impl From<AllocError> for Failure {
    ghost from_gives = { λ _ f. IsBroken f };

    fn from(error: AllocError) -> Failure {
        Failure::Broken(io::Error::from(error))
    }
}

impl Failure {
    /// Prints a refusal; any other failure is passed on.
    pub fn print(self, rt: &impl Print) -> io::Result<()> {
        match self {
            Failure::Refused(report) => println!(rt; "refused {report}"),
            Failure::Broken(failed) => Err(failed),
        }
    }
}

/// The bytes that hex text means, where they are no more than a package can have.
pub fn hex_bytes(heap: Global, text: &[u8]) -> Result<Vec<u8>, Failure>
    ensures { MatchResult result (λ bytes. bytes_of_text text.now ≡ Ok bytes.items) (λ failure. Tells failure (bytes_of_text text.now)) }
{
    let mut bytes = vec![in heap; 0u8; LIMIT]?;
    let count = load(&mut HexText::new(text), &mut bytes)?;
    bytes.truncate(count);
    Ok(bytes)
}

/// The bytes that the hex text on standard input means.
pub fn read_hex(rt: &HostRuntime) -> Result<Vec<u8>, Failure> {
    let mut text = Vec::new(rt.alloc());
    rt.stdin().read_to_end(&mut text)?;
    hex_bytes(rt.alloc(), &text)
}

#[cfg(test)]
mod tests {
    use super::*;
    use std::process::Abort;

    fn refused(rt: &impl Abort, failure: Failure, number: u8, line: usize, column: usize) {
        match failure {
            Failure::Refused(report) => {
                assert_eq!(rt;
                    (report.number, report.first, report.second),
                    (number, line, column)
                );
            }
            Failure::Broken(_) => assert!(rt; false),
        }
    }

    #[test]
    fn texts(rt: HostRuntime) {
        match hex_bytes(rt.alloc(), b"C0 fe # two\n") {
            Ok(bytes) => assert_eq!(&rt; bytes.as_slice(), [0xC0, 0xFE].as_slice()),
            Err(_) => assert!(&rt; false),
        }
        match hex_bytes(rt.alloc(), b"12 C 0") {
            Ok(_) => assert!(&rt; false),
            Err(failure) => refused(&rt, failure, 2, 1, 4),
        }
    }
}
