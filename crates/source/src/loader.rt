// Load: a source's bytes are copied to lent memory, or that memory is zeroed.
ghost use Rattle.std.specs.Prelude.{◌≡◌, length, replicate, if◌then◌else◌, OnOk};
ghost use Rattle.source.specs.declared.loader.LoadFault.TheVariants.{Unreadable};
ghost use Rattle.source.specs.Load.{loaded};

use crate::Source;

/// The most bytes that a package has.
pub const LIMIT: usize = 16384;

/// Why load gives up.
#[derive(Debug, PartialEq, Eq, Drop)]
pub enum LoadFault<P, F> {
    /// A byte is to come past the buffer or the limit, at this place.
    TooLong(P),
    /// The source's own fault, whole.
    Unreadable(F),
}

impl<P, F> From<F> for LoadFault<P, F> {
    ghost from_gives = { λ fault r. r ≡ Unreadable fault };

    fn from(fault: F) -> LoadFault<P, F> {
        LoadFault::Unreadable(fault)
    }
}

// Lent bytes that are zeroed when the guard is dropped, unless all is read. The flag goes with no value: the bytes are there either way.
struct Guard<'a> {
    bytes: &'a mut [u8],
    complete: bool,
}

impl Drop for Guard<'_> {
    fn drop(self)
        ensures { self.exit.0.now ≡ (if self.entry.complete then self.entry.bytes.now else replicate (length self.entry.bytes.now) 0) }
    {
        if !self.complete {
            self.bytes.fill(0);
        }
        let Guard {
            bytes: _,
            complete: _,
        } = self;
    }
}

// Copies all bytes to come to the front of `bytes`, and answers how many. Where that cannot be, it may have copied some.
fn copy_all<S: Source>(
    source: &mut S,
    bytes: &mut [u8],
) -> Result<usize, LoadFault<S::Place, S::Fault>>
    ensures answer { result ≡ (loaded (S.rest source.old) bytes.old).answer }
    ensures memory { OnOk result (bytes.new ≡ (loaded (S.rest source.old) bytes.old).memory) }
    ensures left { S.rest source.new ≡ (loaded (S.rest source.old) bytes.old).left }
{
    let room = bytes.len().min(LIMIT);
    // The count is what the function answers, in the loop and after it: `enumerate` would give it in the loop alone.
    let mut count = 0;
    for slot in &mut bytes[..room] {
        let Some(byte) = source.next()? else {
            return Ok(count);
        };
        *slot = byte;
        count += 1;
    }
    if let Some(place) = source.place() {
        return Err(LoadFault::TooLong(place));
    }
    source.next()?;
    Ok(count)
}

/// Copies all bytes to come to the front of `buffer`, and answers how many. Where that cannot be, the whole buffer is zero.
pub fn load<S: Source>(
    source: &mut S,
    buffer: &mut [u8],
) -> Result<usize, LoadFault<S::Place, S::Fault>>
    ensures { loaded (S.rest source.old) buffer.old ≡ record { answer = result; memory = buffer.new; left = S.rest source.new } }
{
    let mut guard = Guard {
        bytes: buffer,
        complete: false,
    };
    let count = copy_all(source, guard.bytes)?;
    guard.complete = true;
    Ok(count)
}
