// The pools of a package: integers, strings, functions, natives.
ghost use Rattle.std.specs.Prelude.{◌≡◌, ℕ, ◌+◌, ◌-◌, ◌*◌, ◌^◌, ◌<◌, ◌≤◌, [], map, length, drop, slice_index_or, IfOk, OnOk};
ghost use Rattle.std.specs.List.{AllByRecursion};
ghost use Rattle.std.specs.Simd.{first_chunks};
ghost use Rattle.bytecode.specs.Outcome.{told};
ghost use Rattle.reader.specs.Fields.{byte, bytes_from};
ghost use Rattle.reader.specs.Layout.{integers_at, strings_at, function_at, functions_at, native_at, natives_at, code_bytes};
ghost use Rattle.reader.specs.Entries.{integer_of, function_entry, function_entry_of, native_entry, native_entry_of, FunctionFits, FunctionInside, FunctionBehind, MainTakes, NativeFits};

use crate::field::{Cursor, refused};
use crate::package::{Function, FunctionEntry, Native, NativeEntry};
use bytecode::refusal::{FieldFault, Refusal};

// The code bytes of all functions together.
const CODE_LIMIT: usize = 4096;

const VARIABLE_LIMIT: u8 = 32;

const NATIVE_ARGUMENT_LIMIT: u16 = 4;

// The first bytes by fours.
fn fours<'a>(bytes: &'a [u8], count: usize) -> &'a [[u8; 4]]
    requires { 4 * count ≤ length bytes.now }
    ensures met { result.now ≡ first_chunks 4 count bytes.now }
    ensures few { length result.now ≡ count }
    ensures words { (k : ℕ) → integer_of (slice_index_or result.now k []) < 2 ^ 32 }
{
    let (words, _) = bytes.as_chunks::<4>();
    &words[..count]
}

// Reads so many integers.
pub(crate) fn read_integers<'a>(
    cursor: &mut Cursor<'a>,
    count: usize,
) -> Result<&'a [[u8; 4]], Refusal>
    ensures met { integers_at cursor.old.bytes.now count cursor.old.offset ≡ told (λ words. record { value = map integer_of words.now; after = cursor.new.offset }) result }
    ensures lent { cursor.new.bytes.now ≡ cursor.old.bytes.now }
    ensures there { IfOk result (λ words. words.now ≡ first_chunks 4 count (drop cursor.old.offset cursor.old.bytes.now)) }
    ensures few { IfOk result (λ words. length words.now ≡ count) }
    ensures moved { OnOk result (cursor.new.offset ≡ cursor.old.offset + 4 * count) }
    ensures words { IfOk result (λ words. (k : ℕ) → integer_of (slice_index_or words.now k []) < 2 ^ 32) }
{
    let rest = cursor.rest();
    // Each integer is a field: a refusal names the one that is cut.
    for _ in 0..count {
        cursor.block(4)?;
    }
    Ok(fours(rest, count))
}

// Reads so many string bytes, the last of them 0.
pub(crate) fn read_strings<'a>(cursor: &mut Cursor<'a>, size: usize) -> Result<&'a [u8], Refusal>
    ensures met { strings_at cursor.old.bytes.now size cursor.old.offset ≡ told (λ strings. record { value = strings.now; after = cursor.new.offset }) result }
    ensures lent { cursor.new.bytes.now ≡ cursor.old.bytes.now }
    ensures there { IfOk result (λ strings. strings.now ≡ bytes_from cursor.old.bytes.now cursor.old.offset size) }
    ensures few { IfOk result (λ strings. length strings.now ≡ size) }
    ensures inside { OnOk result (cursor.old.offset + size ≤ length cursor.old.bytes.now) }
    ensures ended { IfOk result (λ strings. 0 < length strings.now → byte strings.now (length strings.now - 1) ≡ 0) }
{
    let offset = cursor.offset();
    let strings = cursor.block(size)?;
    match strings.last() {
        Some(last) if *last != 0 => Err(refused(FieldFault::StringEnd, offset)),
        _ => Ok(strings),
    }
}

// Reads a function's pool entry, after functions of so many code bytes.
fn read_function<'a>(
    cursor: &mut Cursor<'a>,
    index: usize,
    before: usize,
) -> Result<FunctionEntry<'a>, Refusal>
    requires { before ≤ 4096 }
    ensures met { function_at cursor.old.bytes.now index cursor.old.offset before ≡ told (λ e. record { value = function_entry_of e; after = cursor.new.offset }) result }
    ensures lent { cursor.new.bytes.now ≡ cursor.old.bytes.now }
    ensures onward { OnOk result (cursor.old.offset ≤ cursor.new.offset) }
    ensures fits { IfOk result FunctionFits }
    ensures inside { IfOk result (FunctionInside cursor.old.bytes.now) }
    ensures few { IfOk result (λ e. before + e.size ≤ 4096) }
    ensures behind { IfOk result (FunctionBehind (length cursor.old.bytes.now - cursor.new.offset)) }
    ensures main { IfOk result (λ e. index ≡ 0 → e.arguments ≡ 0) }
{
    let start = cursor.offset();
    let arguments = cursor.byte()?;
    if index == 0 && arguments != 0 {
        return Err(refused(FieldFault::Limit, start));
    }
    let variables = cursor.byte()?;
    if variables > VARIABLE_LIMIT || variables < arguments {
        return Err(refused(FieldFault::Limit, start + 1));
    }
    let size = cursor.pair()?;
    if size == 0 || size as usize > CODE_LIMIT - before {
        return Err(refused(FieldFault::Limit, start + 2));
    }
    let onward = cursor.rest();
    cursor.block(size as usize)?;
    Ok(FunctionEntry {
        arguments,
        variables,
        size,
        onward,
    })
}

// Reads a function for each place of a list, and answers how many code bytes they have. The cursor goes beside the list: a struct of both
// would owe a clause on each in every method.
pub(crate) fn read_functions<'a>(
    cursor: &mut Cursor<'a>,
    functions: &mut [Function<'a>],
) -> Result<usize, Refusal>
    ensures met { functions_at cursor.old.bytes.now (length functions.old) cursor.old.offset ≡ told (λ _. record { value = map function_entry_of (map function_entry functions.new); after = cursor.new.offset }) result }
    ensures lent { cursor.new.bytes.now ≡ cursor.old.bytes.now }
    ensures fit { OnOk result (AllByRecursion FunctionFits (map function_entry functions.new)) }
    ensures inside { OnOk result (AllByRecursion (FunctionInside cursor.old.bytes.now) (map function_entry functions.new)) }
    ensures behind { OnOk result (AllByRecursion (FunctionBehind (length cursor.old.bytes.now - cursor.new.offset)) (map function_entry functions.new)) }
    ensures takes { OnOk result (MainTakes (map function_entry functions.new)) }
    ensures sum { IfOk result (λ size. code_bytes (map function_entry_of (map function_entry functions.new)) ≡ size) }
    ensures little { IfOk result (λ size. size ≤ 4096) }
{
    let mut code_size = 0;
    for (index, function) in functions.iter_mut().enumerate() {
        function.entry = read_function(cursor, index, code_size)?;
        code_size += function.entry.size as usize;
    }
    Ok(code_size)
}

fn read_native(cursor: &mut Cursor) -> Result<NativeEntry, Refusal>
    ensures met { native_at cursor.old.bytes.now cursor.old.offset ≡ told (λ e. record { value = native_entry_of e; after = cursor.new.offset }) result }
    ensures lent { cursor.new.bytes.now ≡ cursor.old.bytes.now }
    ensures fits { IfOk result NativeFits }
{
    let start = cursor.offset();
    let arguments = cursor.pair()?;
    if arguments > NATIVE_ARGUMENT_LIMIT {
        return Err(refused(FieldFault::Limit, start));
    }
    let index = cursor.pair()?;
    Ok(NativeEntry { arguments, index })
}

// Reads a native for each place of a list. It shares no loop with `read_functions`, which counts code and needs main's number.
pub(crate) fn read_natives<'a>(
    cursor: &mut Cursor<'a>,
    natives: &mut [Native<'a>],
) -> Result<(), Refusal>
    ensures met { natives_at cursor.old.bytes.now (length natives.old) cursor.old.offset ≡ told (λ _. record { value = map native_entry_of (map native_entry natives.new); after = cursor.new.offset }) result }
    ensures lent { cursor.new.bytes.now ≡ cursor.old.bytes.now }
    ensures fit { OnOk result (AllByRecursion NativeFits (map native_entry natives.new)) }
{
    for native in natives.iter_mut() {
        native.entry = read_native(cursor)?;
    }
    Ok(())
}
