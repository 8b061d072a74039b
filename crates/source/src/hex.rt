// Hex text as a source: two adjacent hex digits are a byte, and blanks and comments stand between bytes.
ghost use Rattle.std.specs.Prelude.{◌≡◌, ◌+◌, ◌^◌, ◌<◌, ◌≤◌, length, drop, slice_index};
ghost use Rattle.bytecode.specs.Outcome.{report};
ghost use Rattle.source.specs.Rest.{next_of};
ghost use Rattle.source.specs.Hex.{digit_of, blank, advanced, between, right, hex_text};
ghost use Rattle.source.specs.Numbers.{text_shown};
ghost use Rattle.source.specs.Skipping.{Solid};

use crate::Source;
use crate::loader::LoadFault;
use bytecode::refusal::Report;

/// Where a character stands: its line and its column, both from 1. Only 0A ends a line; any other byte is one column.
#[derive(Clone, Copy, Debug, PartialEq, Eq)]
pub struct Position {
    pub line: usize,
    pub column: usize,
}

/// Why hex text cannot be read on, and where.
#[derive(Clone, Copy, Debug, PartialEq, Eq)]
pub enum TextFault {
    /// A character that is no digit, no blank and not in a comment.
    BadCharacter(Position),
    /// A digit with none adjacent after it.
    LoneDigit(Position),
}

// How far a text is read: the offset of the next character, and its position. It has come no more lines or columns than characters.
#[derive(Clone, Copy)]
struct Cursor {
    offset: usize,
    at: Position,
    ghost lines: { at.line ≤ offset + 1 },
    ghost columns: { at.column ≤ offset + 1 },
}

/// Hex text that is read from the cursor on.
#[derive(Drop)]
pub struct HexText<'a> {
    text: &'a [u8],
    cursor: Cursor,
    ghost within: { cursor.offset ≤ length text.now },
}

impl<'a> HexText<'a> {
    /// All of `text`, from line 1 and column 1 on.
    pub fn new(text: &'a [u8]) -> HexText<'a>
        ensures { between (drop result.cursor.offset result.text.now) result.cursor.at ≡ hex_text text.now }
    {
        let at = Position { line: 1, column: 1 };
        HexText {
            text,
            cursor: Cursor { offset: 0, at },
        }
    }
}

// The value of a hex digit.
fn digit(c: u8) -> Option<u8>
    ensures { result ≡ digit_of c }
{
    let digit = char::from(c).to_digit(16)?;
    Some(digit as u8)
}

fn is_blank(c: u8) -> bool
    ensures { result ≡ blank c }
{
    matches!(c, b' ' | b'\t' | b'\n' | b'\r')
}

impl Cursor {
    // The cursor behind the character `c`, which it stands at.
    fn advance(self, c: u8) -> Cursor
        requires { self.offset < 2 ^ 63 }
        ensures offset { result.offset ≡ self.offset + 1 }
        ensures at { result.at ≡ advanced c self.at }
    {
        let at = self.at;
        let next = if c == b'\n' {
            Position {
                line: at.line + 1,
                column: 1,
            }
        } else {
            Position {
                line: at.line,
                column: at.column + 1,
            }
        };
        Cursor {
            offset: self.offset + 1,
            at: next,
        }
    }

    // The cursor behind the byte whose first digit it stands at.
    fn behind_byte(self) -> Cursor
        requires { self.offset < 2 ^ 63 }
        ensures offset { result.offset ≡ self.offset + 2 }
        ensures at { result.at ≡ right (right self.at) }
    {
        let at = Position {
            line: self.at.line,
            column: self.at.column + 2,
        };
        Cursor {
            offset: self.offset + 2,
            at,
        }
    }
}

// The cursor behind the blanks and comments that stand at `from`.
fn skip_blanks(text: &[u8], from: Cursor) -> Cursor
    requires { from.offset ≤ length text.now }
    ensures inside { result.offset ≤ length text.now }
    ensures same { between (drop result.offset text.now) result.at ≡ between (drop from.offset text.now) from.at }
    ensures passed { result.offset < length text.now → Solid (slice_index text.now result.offset) }
{
    let mut here = from;
    let mut in_comment = false;
    // The cursor counts lines and columns too, so it goes beside the loop.
    for c in &text[from.offset..] {
        if in_comment {
            in_comment = *c != b'\n';
        } else if *c == b'#' {
            in_comment = true;
        } else if !is_blank(*c) {
            return here;
        }
        here = here.advance(*c);
    }
    here
}

// The byte whose two digits begin at `here`, which is behind all blanks and comments.
fn byte_at(text: &[u8], here: Cursor) -> Result<Option<u8>, TextFault>
    requires offset_in_bounds { here.offset ≤ length text.now }
    requires solid { here.offset < length text.now → Solid (slice_index text.now here.offset) }
    ensures { result ≡ next_of (between (drop here.offset text.now) here.at) }
{
    let Some(first) = text.get(here.offset) else {
        return Ok(None);
    };
    let high = digit(*first).ok_or(TextFault::BadCharacter(here.at))?;
    let second = text
        .get(here.offset + 1)
        .ok_or(TextFault::LoneDigit(here.at))?;
    let low = digit(*second).ok_or(TextFault::LoneDigit(here.at))?;
    Ok(Some(high * 16 + low))
}

impl Source for HexText<'_> {
    type Place = Position;

    type Fault = TextFault;

    ghost rest = { λ s. between (drop s.cursor.offset s.text.now) s.cursor.at };

    fn next(&mut self) -> Result<Option<u8>, TextFault> {
        let start = skip_blanks(self.text, self.cursor);
        let found = byte_at(self.text, start)?;
        self.cursor = match found {
            Some(_) => start.behind_byte(),
            None => start,
        };
        Ok(found)
    }

    fn place(&self) -> Option<Position> {
        let start = skip_blanks(self.text, self.cursor);
        match byte_at(self.text, start) {
            Ok(Some(_byte)) => Some(start.at),
            _ => None,
        }
    }
}

/// The numbers of the faults of loading hex text are 1, bad character, 2, lone digit, and 3, too long; the place is line and column.
impl From<&LoadFault<Position, TextFault>> for Report {
    ghost from_gives = { λ fault r. r ≡ report (text_shown fault.now) };

    fn from(fault: &LoadFault<Position, TextFault>) -> Report {
        let (number, at) = match fault {
            LoadFault::Unreadable(TextFault::BadCharacter(at)) => (1, at),
            LoadFault::Unreadable(TextFault::LoneDigit(at)) => (2, at),
            LoadFault::TooLong(at) => (3, at),
        };
        Report {
            number,
            first: at.line,
            second: at.column,
        }
    }
}
