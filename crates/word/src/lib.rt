// Guest arithmetic and comparisons, on the bits of 32-bit words.
#![tactic(auto)]

ghost use Rattle.std.specs.Prelude.{◌≡◌, ℤ};
ghost use Rattle.word.specs.Samples.{Samples, Modulus, answers};
ghost use Rattle.word.specs.Words.{compute as computed, holds as compared, attempted, wrap};

use bytecode::instruction::{Operation, Order};
use bytecode::stop::Stop;

/// What an operation makes of two words, of which `y` was on top; division may stop.
#[tactic(auto, using(crate::proofs::Wrapping::mul_wrap))]
pub fn compute(op: Operation, x: u32, y: u32) -> Result<u32, Stop>
    ensures { attempted result ≡ computed op x y }
{
    let a = x.cast_signed();
    let b = y.cast_signed();
    match op {
        Operation::Add => Ok(x.wrapping_add(y)),
        Operation::Sub => Ok(x.wrapping_sub(y)),
        Operation::Mul => Ok(x.wrapping_mul(y)),
        Operation::Div => a.checked_div(b).map(i32::cast_unsigned).ok_or(Stop::Divide),
        Operation::Rem => a.checked_rem(b).map(i32::cast_unsigned).ok_or(Stop::Divide),
        Operation::And => Ok(x & y),
        Operation::Or => Ok(x | y),
        Operation::Xor => Ok(x ^ y),
        Operation::Shl => Ok(x.wrapping_shl(y)),
        Operation::Shr => Ok(a.wrapping_shr(y).cast_unsigned()),
    }
}

/// Whether two words, of which `y` was on top, stand in an order as signed numbers.
pub fn holds(order: Order, x: u32, y: u32) -> bool
    ensures { result ≡ compared order x y }
{
    let a = x.cast_signed();
    let b = y.cast_signed();
    match order {
        Order::Less => a < b,
        Order::GreaterOrEqual => a >= b,
        Order::Greater => a > b,
        Order::LessOrEqual => a <= b,
    }
}

/// The word of a signed byte.
pub fn sign_extend(b: i8) -> u32
    ensures { result ≡ wrap b }
{
    (b as i32).cast_unsigned()
}

/// The worked examples: −7 by 2 and its remainder, the least word by −1 both ways, 1 shifted left by 33, and bipush 80.
pub fn samples() -> [Result<u32, Stop>; 6]
    ensures stand { Samples }
    ensures answers { result ≡ answers }
    ensures modulus { (z : ℤ) → Modulus z }
{
    let least = 0x8000_0000;
    [
        compute(Operation::Div, sign_extend(-7), 2),
        compute(Operation::Rem, sign_extend(-7), 2),
        compute(Operation::Div, least, sign_extend(-1)),
        compute(Operation::Rem, least, sign_extend(-1)),
        compute(Operation::Shl, 1, 33),
        Ok(sign_extend(-128)),
    ]
}
