// The sheet of a package: a record of kinds for each function and each native.
ghost use Rattle.std.specs.Prelude.{◌≡◌, ◌+◌, ◌≤◌, true, map, length, IfOk, OnOk};
ghost use Rattle.std.specs.List.{AllByRecursion, list_all};
ghost use Rattle.bytecode.specs.Outcome.{told};
ghost use Rattle.reader.specs.Layout.{is_letter, is_record, record_at, function_sheet_at, function_arguments, native_sheet_at, native_arguments, sheet_at};
ghost use Rattle.reader.specs.Entries.{sort_number, signature_of, function_entry, function_entry_of, function_of, native_entry, native_entry_of, native_of, FunctionFits, FunctionLettered, FunctionLettersInside, LettersInside, MainGives, NativeFits, NativeLettered, NativeLettersInside};

use crate::field::{Cursor, refused};
use crate::package::{Function, Native, Signature, WORD};
use bytecode::refusal::{FieldFault, Refusal};

const REFERENCE: u8 = b'a';

// The sort of a record, by its number.
#[derive(Clone, Copy)]
enum Sort {
    Function = 1,
    Native = 2,
}

fn are_letters(letters: &[u8]) -> bool
    ensures { result ≡ list_all is_letter letters.now }
{
    letters
        .iter()
        .all(|letter| *letter == WORD || *letter == REFERENCE)
}

// Whether these bytes are a record of a sort for so many arguments, of main or not.
fn is_record_of(bytes: &[u8], sort: Sort, main: bool, arguments: usize) -> bool
    requires few { arguments ≤ 32 }
    requires long { length bytes.now ≡ 5 + arguments }
    ensures { result ≡ is_record (sort_number sort) main arguments bytes.now }
{
    let length = u16::from_le_bytes([bytes[0], bytes[1]]);
    let found = u16::from_le_bytes([bytes[2], bytes[3]]);
    let letters = &bytes[4..];
    length as usize == 3 + arguments
        && found == sort as u16
        && are_letters(letters)
        && (!main || letters[0] == WORD)
}

// Reads a record of a sort for so many arguments, of main or not.
fn read_record<'a>(
    cursor: &mut Cursor<'a>,
    sort: Sort,
    main: bool,
    arguments: usize,
) -> Result<Signature<'a>, Refusal>
    requires { arguments ≤ 32 }
    ensures met { record_at cursor.old.bytes.now (sort_number sort) main arguments cursor.old.offset ≡ told (λ s. record { value = signature_of s; after = cursor.new.offset }) result }
    ensures lent { cursor.new.bytes.now ≡ cursor.old.bytes.now }
    ensures lettered { IfOk result (λ s. length s.argument_letters.now ≡ arguments) }
    ensures inside { IfOk result (LettersInside cursor.old.bytes.now) }
    ensures gives { IfOk result (λ s. main ≡ true → s.result_letter ≡ 0x77) }
{
    let wrong = refused(FieldFault::Sheet, cursor.offset());
    let Ok(record) = cursor.block(5 + arguments) else {
        return Err(wrong);
    };
    if !is_record_of(record, sort, main, arguments) {
        return Err(wrong);
    }
    let letters = &record[4..];
    Ok(Signature {
        result_letter: letters[0],
        argument_letters: &letters[1..],
    })
}

// Reads the records of functions, and gives each its signature.
fn read_function_sheet<'a>(
    cursor: &mut Cursor<'a>,
    functions: &mut [Function<'a>],
) -> Result<(), Refusal>
    requires { AllByRecursion FunctionFits (map function_entry functions.old) }
    ensures met { function_sheet_at cursor.old.bytes.now (length functions.old) (map function_arguments (map function_entry_of (map function_entry functions.old))) cursor.old.offset ≡ told (λ _. record { value = map (λ f. signature_of f.signature) functions.new; after = cursor.new.offset }) result }
    ensures lent { cursor.new.bytes.now ≡ cursor.old.bytes.now }
    ensures kept { map function_entry functions.new ≡ map function_entry functions.old }
    ensures lettered { OnOk result (AllByRecursion FunctionLettered functions.new) }
    ensures inside { OnOk result (AllByRecursion (FunctionLettersInside cursor.old.bytes.now) functions.new) }
    ensures gives { OnOk result (MainGives functions.new) }
{
    for (index, function) in functions.iter_mut().enumerate() {
        let arguments = function.entry.arguments as usize;
        function.signature = read_record(cursor, Sort::Function, index == 0, arguments)?;
    }
    Ok(())
}

// Reads the records of natives, and gives each its signature. One loop for functions too would take a generic pair,
// a trait with the number of arguments and two impls of it, more than these lines.
fn read_native_sheet<'a>(cursor: &mut Cursor<'a>, natives: &mut [Native<'a>]) -> Result<(), Refusal>
    requires { AllByRecursion NativeFits (map native_entry natives.old) }
    ensures met { native_sheet_at cursor.old.bytes.now (length natives.old) (map native_arguments (map native_entry_of (map native_entry natives.old))) cursor.old.offset ≡ told (λ _. record { value = map (λ f. signature_of f.signature) natives.new; after = cursor.new.offset }) result }
    ensures lent { cursor.new.bytes.now ≡ cursor.old.bytes.now }
    ensures kept { map native_entry natives.new ≡ map native_entry natives.old }
    ensures lettered { OnOk result (AllByRecursion NativeLettered natives.new) }
    ensures inside { OnOk result (AllByRecursion (NativeLettersInside cursor.old.bytes.now) natives.new) }
{
    for native in natives.iter_mut() {
        let arguments = native.entry.arguments as usize;
        native.signature = read_record(cursor, Sort::Native, false, arguments)?;
    }
    Ok(())
}

// Reads the whole sheet, with which the package ends.
pub(crate) fn read_sheet<'a>(
    cursor: &mut Cursor<'a>,
    functions: &mut [Function<'a>],
    natives: &mut [Native<'a>],
) -> Result<(), Refusal>
    requires functions_fit { AllByRecursion FunctionFits (map function_entry functions.old) }
    requires natives_fit { AllByRecursion NativeFits (map native_entry natives.old) }
    ensures met { sheet_at cursor.old.bytes.now (length functions.old) (map function_entry_of (map function_entry functions.old)) (length natives.old) (map native_entry_of (map native_entry natives.old)) cursor.old.offset ≡ told (λ _. record { functions = map function_of functions.new; natives = map native_of natives.new }) result }
    ensures kept { map function_entry functions.new ≡ map function_entry functions.old }
    ensures natives_kept { map native_entry natives.new ≡ map native_entry natives.old }
    ensures lettered { OnOk result (AllByRecursion FunctionLettered functions.new) }
    ensures gives { OnOk result (MainGives functions.new) }
    ensures natives_lettered { OnOk result (AllByRecursion NativeLettered natives.new) }
    ensures inside { OnOk result (AllByRecursion (FunctionLettersInside cursor.old.bytes.now) functions.new) }
    ensures natives_inside { OnOk result (AllByRecursion (NativeLettersInside cursor.old.bytes.now) natives.new) }
{
    read_function_sheet(cursor, functions)?;
    read_native_sheet(cursor, natives)?;
    if !cursor.rest().is_empty() {
        return Err(refused(FieldFault::Sheet, cursor.offset()));
    }
    Ok(())
}
