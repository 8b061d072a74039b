// Raw bytes as a source: the place of each is its offset, and there is no fault.
ghost use Rattle.std.specs.Prelude.{◌≡◌, drop};
ghost use Rattle.bytecode.specs.Outcome.{report};
ghost use Rattle.source.specs.Numbers.{raw_shown};
ghost use Rattle.source.specs.Raw.{raw};

use crate::Source;
use crate::loader::LoadFault;
use bytecode::refusal::Report;
use std::convert::Infallible;

/// Bytes that are read from `offset` on.
#[derive(Drop)]
pub struct Raw<'a> {
    bytes: &'a [u8],
    offset: usize,
}

impl<'a> Raw<'a> {
    /// All of `bytes`, with offsets from 0.
    pub fn new(bytes: &'a [u8]) -> Raw<'a>
        ensures { raw (drop result.offset result.bytes.now) result.offset ≡ raw bytes.now 0 }
    {
        Raw { bytes, offset: 0 }
    }
}

impl Source for Raw<'_> {
    type Place = usize;

    type Fault = Infallible;

    ghost rest = { λ s. raw (drop s.offset s.bytes.now) s.offset };

    fn next(&mut self) -> Result<Option<u8>, Infallible> {
        let Some(byte) = self.bytes.get(self.offset) else {
            return Ok(None);
        };
        self.offset += 1;
        Ok(Some(*byte))
    }

    fn place(&self) -> Option<usize> {
        let _byte = self.bytes.get(self.offset)?;
        Some(self.offset)
    }
}

/// The number of the one fault of loading raw bytes is 3, too long; its place is 0 and the offset.
impl From<&LoadFault<usize, Infallible>> for Report {
    ghost from_gives = { λ fault r. r ≡ report (raw_shown fault.now) };

    fn from(fault: &LoadFault<usize, Infallible>) -> Report {
        match fault {
            LoadFault::TooLong(offset) => Report {
                number: 3,
                first: 0,
                second: *offset,
            },
            LoadFault::Unreadable(never) => match *never {},
        }
    }
}
