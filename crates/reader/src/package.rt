// A package that was read.
ghost use Rattle.std.specs.Prelude.{◌≡◌, ◌+◌, ◌<◌, ◌≤◌, length, map, take, slice_index_or};
ghost use Rattle.bytecode.specs.declared.kind.Kind.TheVariants.{Unknown};
ghost use Rattle.reader.specs.Layout.{kind_of as kind_told};
ghost use Rattle.std.specs.List.{All};
ghost use Rattle.reader.specs.Entries.{function_entry, FrontFits, FunctionInside, FunctionsKnown, FunctionLettersInside, NativesKnown, NativeLettersInside};

use bytecode::kind::Kind;

// The letter of a word in the sheet. The other letter is that of a reference.
pub(crate) const WORD: u8 = b'w';

fn kind_of(letter: u8) -> Kind
    ensures { result ≡ kind_told letter }
{
    if letter == WORD {
        Kind::Word
    } else {
        Kind::Reference
    }
}

/// The kinds that a function or a native takes and gives, by their letters in the sheet.
// The letters lie in the package: a list of kinds would need memory of its own.
#[derive(Clone, Copy)]
pub struct Signature<'a> {
    pub result_letter: u8,
    pub argument_letters: &'a [u8],
}

pub(crate) const NO_SIGNATURE: Signature<'static> = Signature {
    result_letter: WORD,
    argument_letters: &[],
};

impl<'a> Signature<'a> {
    ghost use Rattle.reader.specs.Entries.{signature_of};

    /// The kind of what is given back.
    pub fn result_kind(&self) -> Kind
        ensures { result ≡ (signature_of self.now).result }
    {
        kind_of(self.result_letter)
    }

    /// How many arguments are taken.
    pub fn argument_count(&self) -> usize
        ensures { result ≡ length (signature_of self.now).arguments }
    {
        self.argument_letters.len()
    }

    /// The kind of an argument.
    pub fn argument_kind(&self, argument: usize) -> Kind
        requires { argument < length (signature_of self.now).arguments }
        ensures { result ≡ slice_index_or (signature_of self.now).arguments argument Unknown }
    {
        kind_of(self.argument_letters[argument])
    }
}

/// What the pool says of a function. Its code are the first bytes of `onward`, which goes on to the end of the package:
/// so the three bytes at a place of the code are there without a test.
#[derive(Clone, Copy)]
pub struct FunctionEntry<'a> {
    pub arguments: u8,
    pub variables: u8,
    pub size: u16,
    pub onward: &'a [u8],
}

/// What the pool says of a native.
#[derive(Clone, Copy)]
pub struct NativeEntry {
    pub arguments: u16,
    pub index: u16,
}

// Functions and natives stand apart, with methods of their own: they are two pools with numbers of their own, and have little else in common.

/// A function, with its signature from the sheet.
#[derive(Clone, Copy)]
pub struct Function<'a> {
    pub entry: FunctionEntry<'a>,
    pub signature: Signature<'a>,
}

/// A native, with its signature from the sheet.
#[derive(Clone, Copy)]
pub struct Native<'a> {
    pub entry: NativeEntry,
    pub signature: Signature<'a>,
}

pub(crate) const NO_FUNCTION: Function<'static> = Function {
    entry: FunctionEntry {
        arguments: 0,
        variables: 0,
        size: 0,
        onward: &[],
    },
    signature: NO_SIGNATURE,
};

pub(crate) const NO_NATIVE: Native<'static> = Native {
    entry: NativeEntry {
        arguments: 0,
        index: 0,
    },
    signature: NO_SIGNATURE,
};

pub(crate) const FUNCTION_LIMIT: usize = 64;

pub(crate) const NATIVE_LIMIT: usize = 32;

/// What a package's bytes hold. `code_size` counts the code bytes of all functions.
// There is no heap: the functions and the natives stand at the front of arrays, each with a count. A vector in an array would not be `Copy`,
// and a package is copied into its machine.
#[derive(Clone, Copy)]
pub struct Package<'a> {
    pub bytes: &'a [u8],
    pub integers: &'a [[u8; 4]],
    pub strings: &'a [u8],
    pub code_size: usize,
    pub function_count: usize,
    pub native_count: usize,
    pub functions: [Function<'a>; FUNCTION_LIMIT],
    pub natives: [Native<'a>; NATIVE_LIMIT],
    pub ghost function_room: { length functions ≡ 64 },
    pub ghost native_room: { length natives ≡ 32 },
    pub ghost some_functions: { 0 < function_count },
    pub ghost few_functions: { function_count ≤ 64 },
    pub ghost few_natives: { native_count ≤ 32 },
    pub ghost front: { FrontFits bytes.now integers.now strings.now },
    pub ghost functions_known: { FunctionsKnown (take function_count functions) code_size },
    pub ghost natives_known: { NativesKnown (take native_count natives) },
    pub ghost codes_inside: { All (FunctionInside bytes.now) (map function_entry (take function_count functions)) },
    pub ghost letters_inside: { All (FunctionLettersInside bytes.now) (take function_count functions) },
    pub ghost native_letters_inside: { All (NativeLettersInside bytes.now) (take native_count natives) },
}

// Instructions name functions and natives by numbers. That there is one is a clause of each method: a type for a number that is good would
// have to hold the package too, as those of the verifier and of calls do.
impl<'a> Package<'a> {
    ghost use Rattle.std.specs.Prelude.{slice_index};
    ghost use Rattle.reader.specs.Entries.{signature_of, function_of, native_of, FunctionFits, FunctionBehind, FunctionLettered, NativeFits, NativeLettered};
    ghost use Rattle.reader.specs.View.{program_of, function_in, native_in, BytesAt};

    /// How many functions there are.
    #[tactic(auto, using(crate::proofs::Fits::function_counted))]
    pub fn function_count(&self) -> usize
        ensures { result ≡ length (program_of self.now).functions }
    {
        self.function_count
    }

    /// How many natives there are.
    #[tactic(auto, using(crate::proofs::Fits::native_counted))]
    pub fn native_count(&self) -> usize
        ensures { result ≡ length (program_of self.now).natives }
    {
        self.native_count
    }

    #[tactic(auto, using(crate::proofs::Fits::function_counted))]
    fn function_at(&self, function: usize) -> &Function<'a>
        requires { function < length (program_of self.now).functions }
        ensures met { function_in (program_of self.now) function ≡ function_of result.now }
        ensures fits { FunctionFits result.now.entry }
        ensures behind { FunctionBehind 2 result.now.entry }
        ensures lettered { FunctionLettered result.now }
    {
        &self.functions[function]
    }

    #[tactic(auto, using(crate::proofs::Fits::native_counted))]
    fn native_at(&self, native: usize) -> &Native<'a>
        requires { native < length (program_of self.now).natives }
        ensures met { native_in (program_of self.now) native ≡ native_of result.now }
        ensures fits { NativeFits result.now.entry }
        ensures lettered { NativeLettered result.now }
    {
        &self.natives[native]
    }

    /// An integer, by its 32 bits.
    pub fn integer(&self, index: usize) -> u32
        requires { index < length (program_of self.now).integers }
        ensures { result ≡ slice_index (program_of self.now).integers index }
    {
        u32::from_be_bytes(self.integers[index])
    }

    /// All string bytes.
    pub fn string_bytes(&self) -> &'a [u8]
        ensures { result.now ≡ (program_of self.now).strings }
    {
        self.strings
    }

    /// The code of a function.
    pub fn code(&self, function: usize) -> &'a [u8]
        requires { function < length (program_of self.now).functions }
        ensures met { result.now ≡ (function_in (program_of self.now) function).code }
        ensures some { 0 < length result.now }
        ensures few { length result.now ≤ 4096 }
    {
        let entry = self.function_at(function).entry;
        &entry.onward[..entry.size as usize]
    }

    /// The byte at a place of a function's code, and the two after it. Where the code ends before those, they stand behind it.
    pub fn code_bytes(&self, function: usize, place: usize) -> (u8, u8, u8)
        requires inside { function < length (program_of self.now).functions }
        requires within { place < length (function_in (program_of self.now) function).code }
        ensures { BytesAt (function_in (program_of self.now) function).code place result.0 result.1 result.2 }
    {
        let code = self.function_at(function).entry.onward;
        (code[place], code[place + 1], code[place + 2])
    }

    /// How many variables a function has, its arguments among them.
    pub fn variables(&self, function: usize) -> usize
        requires { function < length (program_of self.now).functions }
        ensures met { result ≡ (function_in (program_of self.now) function).variables }
        ensures few { result ≤ 32 }
    {
        self.function_at(function).entry.variables as usize
    }

    /// What a function takes and gives.
    pub fn signature(&self, function: usize) -> Signature<'a>
        requires { function < length (program_of self.now).functions }
        ensures met { signature_of result ≡ (function_in (program_of self.now) function).signature }
        ensures few { length result.argument_letters.now ≤ (function_in (program_of self.now) function).variables }
    {
        self.function_at(function).signature
    }

    /// The index of a native in the host's table.
    pub fn native_index(&self, native: usize) -> u16
        requires { native < length (program_of self.now).natives }
        ensures { result ≡ (native_in (program_of self.now) native).index }
    {
        self.native_at(native).entry.index
    }

    /// What a native takes and gives.
    pub fn native_signature(&self, native: usize) -> Signature<'a>
        requires { native < length (program_of self.now).natives }
        ensures met { signature_of result ≡ (native_in (program_of self.now) native).signature }
        ensures few { length result.argument_letters.now ≤ 4 }
    {
        self.native_at(native).signature
    }
}
