// Instructions and their bytes. Opcodes stand here and nowhere else.
ghost use Rattle.std.specs.Prelude.{◌≡◌, ◌+◌, ◌^◌, ◌<◌, ◌≤◌, length};
ghost use Rattle.bytecode.specs.Instructions.{instruction_of, size_of, decode_at, byte_at, target as target_of};

use std::fmt;

/// Two words to one.
#[derive(Clone, Copy, Debug, PartialEq, Eq)]
pub enum Operation {
    Add,
    Sub,
    Mul,
    Div,
    Rem,
    And,
    Or,
    Xor,
    Shl,
    Shr,
}

/// How two words are compared, as signed numbers.
#[derive(Clone, Copy, Debug, PartialEq, Eq)]
pub enum Order {
    Less,
    GreaterOrEqual,
    Greater,
    LessOrEqual,
}

/// An instruction with its operands. A branch has its offset from its own place.
#[derive(Clone, Copy, Debug, PartialEq, Eq)]
pub enum Instruction {
    Nop,
    Pop,
    Dup,
    Swap,
    AconstNull,
    Aldc(u16),
    Bipush(i8),
    Ildc(u16),
    Vload(u8),
    Vstore(u8),
    Binary(Operation),
    IfCmpeq(i16),
    IfCmpne(i16),
    IfIcmp(Order, i16),
    Goto(i16),
    Invokestatic(u16),
    Invokenative(u16),
    Return,
    New(u8),
    Newarray(u8),
    Arraylength,
    Aaddf(u8),
    Aadds,
    Imload,
    Cmload,
    Amload,
    Imstore,
    Cmstore,
    Amstore,
}

/// The instruction that an opcode and the two bytes after it make; most use none or one of them.
pub fn instruction_of(op: u8, first: u8, second: u8) -> Option<Instruction>
    ensures { result ≡ instruction_of op first second }
{
    let wide = u16::from_be_bytes([first, second]);
    let offset = i16::from_be_bytes([first, second]);
    let found = match op {
        0x00 => Instruction::Nop,
        0x01 => Instruction::AconstNull,
        0x10 => Instruction::Bipush(first.cast_signed()),
        0x13 => Instruction::Ildc(wide),
        0x14 => Instruction::Aldc(wide),
        0x15 => Instruction::Vload(first),
        0x2E => Instruction::Imload,
        0x2F => Instruction::Amload,
        0x34 => Instruction::Cmload,
        0x36 => Instruction::Vstore(first),
        0x4E => Instruction::Imstore,
        0x4F => Instruction::Amstore,
        0x55 => Instruction::Cmstore,
        0x57 => Instruction::Pop,
        0x59 => Instruction::Dup,
        0x5F => Instruction::Swap,
        0x60 => Instruction::Binary(Operation::Add),
        0x62 => Instruction::Aaddf(first),
        0x63 => Instruction::Aadds,
        0x64 => Instruction::Binary(Operation::Sub),
        0x68 => Instruction::Binary(Operation::Mul),
        0x6C => Instruction::Binary(Operation::Div),
        0x70 => Instruction::Binary(Operation::Rem),
        0x78 => Instruction::Binary(Operation::Shl),
        0x7A => Instruction::Binary(Operation::Shr),
        0x7E => Instruction::Binary(Operation::And),
        0x80 => Instruction::Binary(Operation::Or),
        0x82 => Instruction::Binary(Operation::Xor),
        0x9F => Instruction::IfCmpeq(offset),
        0xA0 => Instruction::IfCmpne(offset),
        0xA1 => Instruction::IfIcmp(Order::Less, offset),
        0xA2 => Instruction::IfIcmp(Order::GreaterOrEqual, offset),
        0xA3 => Instruction::IfIcmp(Order::Greater, offset),
        0xA4 => Instruction::IfIcmp(Order::LessOrEqual, offset),
        0xA7 => Instruction::Goto(offset),
        0xB0 => Instruction::Return,
        0xB7 => Instruction::Invokenative(wide),
        0xB8 => Instruction::Invokestatic(wide),
        0xBB => Instruction::New(first),
        0xBC => Instruction::Newarray(first),
        0xBE => Instruction::Arraylength,
        _ => return None,
    };
    Some(found)
}

impl Instruction {
    /// How many bytes it has.
    pub fn size(self) -> usize
        ensures exact { result ≡ size_of self }
        ensures some { 0 < result }
        ensures few { result ≤ 3 }
    {
        match self {
            Instruction::Bipush(_)
            | Instruction::Vload(_)
            | Instruction::Vstore(_)
            | Instruction::New(_)
            | Instruction::Newarray(_)
            | Instruction::Aaddf(_) => 2,
            Instruction::Aldc(_)
            | Instruction::Ildc(_)
            | Instruction::IfCmpeq(_)
            | Instruction::IfCmpne(_)
            | Instruction::IfIcmp(_, _)
            | Instruction::Goto(_)
            | Instruction::Invokestatic(_)
            | Instruction::Invokenative(_) => 3,
            Instruction::Nop
            | Instruction::Pop
            | Instruction::Dup
            | Instruction::Swap
            | Instruction::AconstNull
            | Instruction::Binary(_)
            | Instruction::Return
            | Instruction::Arraylength
            | Instruction::Aadds
            | Instruction::Imload
            | Instruction::Cmload
            | Instruction::Amload
            | Instruction::Imstore
            | Instruction::Cmstore
            | Instruction::Amstore => 1,
        }
    }
}

// A byte of the code, or 0 past its end.
fn byte_or_zero(code: &[u8], place: usize) -> u8
    ensures { result ≡ byte_at code.now place }
{
    code.get(place).copied().unwrap_or(0)
}

/// The instruction at a place of a code; none where the opcode is unknown or its operands are cut.
pub fn decode(code: &[u8], place: usize) -> Option<Instruction>
    requires { place < length code.now }
    ensures met { result ≡ decode_at code.now place }
{
    let found = instruction_of(
        code[place],
        byte_or_zero(code, place + 1),
        byte_or_zero(code, place + 2),
    )?;
    (place + found.size() <= code.len()).then_some(found)
}

/// Where a branch at a place of a code goes; none where that is before the code.
pub fn target(place: usize, offset: i16) -> Option<usize>
    requires { place < 2 ^ 32 }
    ensures { result ≡ target_of place offset }
{
    place.checked_add_signed(offset as isize)
}

/// The name of its instruction.
impl fmt::Display for Operation {
    fn fmt<W: fmt::Write>(&self, f: &mut fmt::Formatter<W>) -> fmt::Result {
        f.write_str(match self {
            Operation::Add => "iadd",
            Operation::Sub => "isub",
            Operation::Mul => "imul",
            Operation::Div => "idiv",
            Operation::Rem => "irem",
            Operation::And => "iand",
            Operation::Or => "ior",
            Operation::Xor => "ixor",
            Operation::Shl => "ishl",
            Operation::Shr => "ishr",
        })
    }
}

/// The name of the branch that compares so.
impl fmt::Display for Order {
    fn fmt<W: fmt::Write>(&self, f: &mut fmt::Formatter<W>) -> fmt::Result {
        f.write_str(match self {
            Order::Less => "if_icmplt",
            Order::GreaterOrEqual => "if_icmpge",
            Order::Greater => "if_icmpgt",
            Order::LessOrEqual => "if_icmple",
        })
    }
}

/// Its name and its operand, if it has one; a branch shows its offset.
impl fmt::Display for Instruction {
    fn fmt<W: fmt::Write>(&self, f: &mut fmt::Formatter<W>) -> fmt::Result {
        match self {
            Instruction::Nop => write!(f, "nop"),
            Instruction::Pop => write!(f, "pop"),
            Instruction::Dup => write!(f, "dup"),
            Instruction::Swap => write!(f, "swap"),
            Instruction::AconstNull => write!(f, "aconst_null"),
            Instruction::Aldc(index) => write!(f, "aldc {index}"),
            Instruction::Bipush(byte) => write!(f, "bipush {byte}"),
            Instruction::Ildc(index) => write!(f, "ildc {index}"),
            Instruction::Vload(variable) => write!(f, "vload {variable}"),
            Instruction::Vstore(variable) => write!(f, "vstore {variable}"),
            Instruction::Binary(operation) => write!(f, "{operation}"),
            Instruction::IfCmpeq(offset) => write!(f, "if_cmpeq {offset}"),
            Instruction::IfCmpne(offset) => write!(f, "if_cmpne {offset}"),
            Instruction::IfIcmp(order, offset) => write!(f, "{order} {offset}"),
            Instruction::Goto(offset) => write!(f, "goto {offset}"),
            Instruction::Invokestatic(function) => write!(f, "invokestatic {function}"),
            Instruction::Invokenative(native) => write!(f, "invokenative {native}"),
            Instruction::Return => write!(f, "return"),
            Instruction::New(size) => write!(f, "new {size}"),
            Instruction::Newarray(size) => write!(f, "newarray {size}"),
            Instruction::Arraylength => write!(f, "arraylength"),
            Instruction::Aaddf(field) => write!(f, "aaddf {field}"),
            Instruction::Aadds => write!(f, "aadds"),
            Instruction::Imload => write!(f, "imload"),
            Instruction::Cmload => write!(f, "cmload"),
            Instruction::Amload => write!(f, "amload"),
            Instruction::Imstore => write!(f, "imstore"),
            Instruction::Cmstore => write!(f, "cmstore"),
            Instruction::Amstore => write!(f, "amstore"),
        }
    }
}
