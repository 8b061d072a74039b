// Reads a package and its sheet, field by field.
#![tactic(auto)]

ghost use Rattle.std.specs.Prelude.{◌≡◌, map, IfOk};
ghost use Rattle.bytecode.specs.Outcome.{told};
ghost use Rattle.reader.specs.Layout.{magic_at, front_at, package_at};
ghost use Rattle.reader.specs.Entries.{integer_of, FrontRead};
ghost use Rattle.reader.specs.View.{program_of, Fitting};
ghost use Rattle.reader.specs.Samples.{Samples};

use bytecode::refusal::{FieldFault, Refusal};
use field::{Cursor, refused};
use package::{FUNCTION_LIMIT, NATIVE_LIMIT, NO_FUNCTION, NO_NATIVE, Package};

mod field;
pub mod package;
mod pool;
mod sheet;

const LENGTH_LIMIT: usize = 16384;

const VERSION: u16 = 0x0017;

// Reads the first four bytes, and answers a cursor behind them.
fn read_magic<'a>(bytes: &'a [u8]) -> Result<Cursor<'a>, Refusal>
    ensures met { magic_at bytes.now ≡ told (λ cursor. cursor.offset) result }
    ensures lent { IfOk result (λ cursor. cursor.bytes.now ≡ bytes.now) }
    ensures behind { IfOk result (λ cursor. cursor.offset ≡ 4) }
{
    match bytes {
        [0xC0, 0xC0, 0xFF, 0xEE, rest @ ..] => Ok(Cursor::new(bytes, bytes.len() - rest.len())),
        [_, _, _, _, ..] => Err(refused(FieldFault::Magic, 0)),
        _ => Err(refused(FieldFault::Cut, 0)),
    }
}

// What stands before the functions, and a cursor behind it.
#[derive(Drop)]
struct Front<'a> {
    integers: &'a [[u8; 4]],
    strings: &'a [u8],
    cursor: Cursor<'a>,
}

// Reads what stands before the functions.
fn read_front<'a>(bytes: &'a [u8]) -> Result<Front<'a>, Refusal>
    ensures met { front_at bytes.now ≡ told (λ front. record { value = record { integers = map integer_of front.integers.now; strings = front.strings.now }; after = front.cursor.offset }) result }
    ensures lent { IfOk result (λ front. front.cursor.bytes.now ≡ bytes.now) }
    ensures fits { IfOk result (λ front. FrontRead bytes.now front.integers.now front.strings.now) }
{
    if bytes.len() > LENGTH_LIMIT {
        return Err(refused(FieldFault::Limit, 0));
    }
    let mut cursor = read_magic(bytes)?;
    let version_offset = cursor.offset();
    if cursor.pair()? != VERSION {
        return Err(refused(FieldFault::Version, version_offset));
    }
    let integer_count = cursor.pair()? as usize;
    let integers = pool::read_integers(&mut cursor, integer_count)?;
    let string_size = cursor.pair()? as usize;
    let strings = pool::read_strings(&mut cursor, string_size)?;
    Ok(Front {
        integers,
        strings,
        cursor,
    })
}

/// Reads a package with its sheet: what it holds, or the first field or record that is wrong.
pub fn read_package<'a>(bytes: &'a [u8]) -> Result<Package<'a>, Refusal>
    ensures met { package_at bytes.now ≡ told program_of result }
    ensures lent { IfOk result (λ p. p.bytes.now ≡ bytes.now) }
    ensures fitting { IfOk result Fitting }
    ensures front { IfOk result (λ p. FrontRead bytes.now p.integers.now p.strings.now) }
{
    let Front {
        integers,
        strings,
        mut cursor,
    } = read_front(bytes)?;
    let functions_offset = cursor.offset();
    let function_count = cursor.pair()? as usize;
    if function_count == 0 || function_count > FUNCTION_LIMIT {
        return Err(refused(FieldFault::Limit, functions_offset));
    }
    let mut functions = [NO_FUNCTION; FUNCTION_LIMIT];
    let code_size = pool::read_functions(&mut cursor, &mut functions[..function_count])?;
    let natives_offset = cursor.offset();
    let native_count = cursor.pair()? as usize;
    if native_count > NATIVE_LIMIT {
        return Err(refused(FieldFault::Limit, natives_offset));
    }
    let mut natives = [NO_NATIVE; NATIVE_LIMIT];
    pool::read_natives(&mut cursor, &mut natives[..native_count])?;
    sheet::read_sheet(
        &mut cursor,
        &mut functions[..function_count],
        &mut natives[..native_count],
    )?;
    Ok(Package {
        bytes,
        integers,
        strings,
        code_size,
        function_count,
        native_count,
        functions,
        natives,
    })
}

/// The package of a program that answers six times seven. The contract says what it and changes of it read to.
pub fn sample_package() -> [u8; 29]
    ensures { Samples result }
{
    [
        0xC0, 0xC0, 0xFF, 0xEE, 0x00, 0x17, 0x00, 0x00, 0x00, 0x00, 0x00, 0x01, 0x00, 0x00, 0x00,
        0x06, 0x10, 0x06, 0x10, 0x07, 0x68, 0xB0, 0x00, 0x00, 0x03, 0x00, 0x01, 0x00, 0x77,
    ]
}
