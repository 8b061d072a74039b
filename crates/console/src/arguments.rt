// The arguments of the program.
use machine::sizes::Sizes;
use std::alloc::Global;
use std::env::Args;
use std::num::ParseIntError;
use std::str::FromStr;

pub const USAGE: &str =
    "usage: console SLOTS FRAMES CELLS BLOCKS drive|line:BYTES run:ALLOWANCE|look:FRAME..";

/// Which host serves the program; a line host has a buffer of so many bytes.
#[derive(Clone, Copy)]
pub enum Chosen {
    Drive,
    Line(usize),
}

/// A call on the machine.
#[derive(Clone, Copy)]
pub enum Request {
    Run(u32),
    Look(usize),
}

/// The sizes of memory, the host and the calls.
#[derive(Drop)]
pub struct Asked {
    pub sizes: Sizes,
    pub host: Chosen,
    pub requests: Vec<Request>,
}

/// Why a word is no host and no call.
#[derive(Clone, Copy, Debug, PartialEq, Eq)]
pub struct Malformed;

impl From<ParseIntError> for Malformed {
    fn from(_error: ParseIntError) -> Malformed {
        Malformed
    }
}

impl FromStr for Chosen {
    type Err = Malformed;

    fn from_str(word: &str) -> Result<Chosen, Malformed> {
        if word == "drive" {
            return Ok(Chosen::Drive);
        }
        let size = word.strip_prefix("line:").ok_or(Malformed)?;
        Ok(Chosen::Line(size.parse::<usize>()?))
    }
}

impl FromStr for Request {
    type Err = Malformed;

    fn from_str(word: &str) -> Result<Request, Malformed> {
        let (call, number) = word.split_once(':').ok_or(Malformed)?;
        match call {
            "run" => Ok(Request::Run(number.parse::<u32>()?)),
            "look" => Ok(Request::Look(number.parse::<usize>()?)),
            _ => Err(Malformed),
        }
    }
}

// What the next word stands for.
fn next<T: FromStr>(words: &mut Args) -> Option<T>
where
    T::Err: Drop,
{
    let word = words.next()?;
    word.as_str().parse::<T>().ok()
}

/// What the arguments ask for, if they are well formed. The first is the name of the program.
pub fn read_arguments(heap: Global, mut words: Args) -> Option<Asked> {
    let _ = words.next()?;
    let sizes = Sizes {
        slots: next(&mut words)?,
        frames: next(&mut words)?,
        cells: next(&mut words)?,
        records: next(&mut words)?,
    };
    let host = next::<Chosen>(&mut words)?;
    let mut requests = Vec::new(heap);
    for word in words {
        requests.push(word.as_str().parse::<Request>().ok()?).ok()?;
    }
    Some(Asked {
        sizes,
        host,
        requests,
    })
}
