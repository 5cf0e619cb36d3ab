//! The forms of operands. Registers are read before numbers, so a wrong form comes before a range.

ghost use Rattle.std.specs.Prelude.{◌≡◌, ◌<◌, ◌≤◌, Ok, IfOk};
ghost use Rattle.rv64_asm.specs.Statements as spec;
ghost use Rattle.rv64_asm.specs.Returned.{Gives, target_named};
ghost use Rattle.rv64_asm.specs.Returned.{seen};
ghost use Rattle.rv64_asm.specs.Numbers.{◌>>=◌ as ◌>>>◌};

use crate::fault::LineFault;
use crate::lexing::{Operands, cut};
use crate::names::is_name;
use crate::numbers::{natural, number_in};
use crate::statement::Target;
use crate::words::{fence_set_of, register_of};
use rv64_decode::{FenceBits, Immediate, Register, ShiftAmount, UpperImmediate, WordShiftAmount};

pub fn register(text: &[u8]) -> Result<Register, LineFault>
    ensures { result ≡ spec.register text.now }
{
    register_of(text).ok_or(LineFault::OperandForm)
}

pub fn immediate(text: &[u8]) -> Result<Immediate, LineFault>
    ensures { result ≡ spec.immediate text.now }
{
    let number = number_in(text, -2048, 2047)?;
    Ok(Immediate::new(number as i16))
}

/// A base and the number before it. The fault of the base comes first.
fn base_and_number(
    base: Result<Register, LineFault>,
    number: Result<Immediate, LineFault>,
) -> Result<(Register, Immediate), LineFault>
    ensures { result ≡ (base >>> λ b. number >>> λ n. Ok (b, n)) }
{
    let base = base?;
    let number = number?;
    Ok((base, number))
}

/// The register and the number of `number(register)`.
#[tactic(auto, unfolding(crate::specs::Statements::place_of))]
fn place_of(text: &[u8]) -> Result<(Register, Immediate), LineFault>
    ensures { result ≡ spec.place_of text.now }
{
    let Some((number, rest)) = cut(text, b'(') else {
        return Err(LineFault::OperandForm);
    };
    let Some((name, after)) = cut(rest, b')') else {
        return Err(LineFault::OperandForm);
    };
    if !after.is_empty() {
        return Err(LineFault::OperandForm);
    }
    base_and_number(register(name), immediate(number))
}

/// A label, or the address as a number.
#[tactic(auto, unfolding(crate::specs::Statements::target_of))]
pub fn target_of(text: &[u8]) -> Result<Target<&[u8]>, LineFault>
    ensures { Gives target_named result (spec.target_of text.now) }
{
    if is_name(text) {
        return Ok(Target::Label(text));
    }
    let address = natural(text, u64::MAX)?;
    Ok(Target::Address(address))
}

#[tactic(auto, unfolding(crate::specs::Statements::three_registers))]
pub fn three_registers(
    operands: Operands<&[u8]>,
) -> Result<(Register, Register, Register), LineFault>
    ensures { result ≡ spec.three_registers (seen operands.entry) }
{
    let Operands::Three(rd, rs1, rs2) = operands else {
        return Err(LineFault::OperandForm);
    };
    let rd = register(rd)?;
    let rs1 = register(rs1)?;
    let rs2 = register(rs2)?;
    Ok((rd, rs1, rs2))
}

#[tactic(auto, unfolding(crate::specs::Statements::two_registers))]
pub fn two_registers(operands: Operands<&[u8]>) -> Result<(Register, Register), LineFault>
    ensures { result ≡ spec.two_registers (seen operands.entry) }
{
    let Operands::Two(rd, rs) = operands else {
        return Err(LineFault::OperandForm);
    };
    let rd = register(rd)?;
    let rs = register(rs)?;
    Ok((rd, rs))
}

pub fn one_register(operands: Operands<&[u8]>) -> Result<Register, LineFault>
    ensures { result ≡ spec.one_register (seen operands.entry) }
{
    let Operands::One(rs) = operands else {
        return Err(LineFault::OperandForm);
    };
    register(rs)
}

#[tactic(auto, unfolding(crate::specs::Statements::with_immediate))]
pub fn with_immediate(
    operands: Operands<&[u8]>,
) -> Result<(Register, Register, Immediate), LineFault>
    ensures { result ≡ spec.with_immediate (seen operands.entry) }
{
    let Operands::Three(rd, rs1, number) = operands else {
        return Err(LineFault::OperandForm);
    };
    let rd = register(rd)?;
    let rs1 = register(rs1)?;
    let number = immediate(number)?;
    Ok((rd, rs1, number))
}

/// Two registers and an amount of at most `high`.
#[tactic(auto, unfolding(crate::specs::Statements::with_amount))]
fn with_amount(operands: Operands<&[u8]>, high: u64) -> Result<(Register, Register, u64), LineFault>
    ensures given { result ≡ spec.with_amount high (seen operands.entry) }
    ensures within { IfOk result (λ x. x.2 ≤ high) }
{
    let Operands::Three(rd, rs1, amount) = operands else {
        return Err(LineFault::OperandForm);
    };
    let rd = register(rd)?;
    let rs1 = register(rs1)?;
    let amount = natural(amount, high)?;
    Ok((rd, rs1, amount))
}

pub fn with_shift_amount(
    operands: Operands<&[u8]>,
) -> Result<(Register, Register, ShiftAmount), LineFault>
    ensures { result ≡ spec.with_amount 63 (seen operands.entry) }
{
    let (rd, rs1, amount) = with_amount(operands, 63)?;
    Ok((rd, rs1, ShiftAmount::new(amount as u8)))
}

pub fn with_word_shift_amount(
    operands: Operands<&[u8]>,
) -> Result<(Register, Register, WordShiftAmount), LineFault>
    ensures { result ≡ spec.with_amount 31 (seen operands.entry) }
{
    let (rd, rs1, amount) = with_amount(operands, 31)?;
    Ok((rd, rs1, WordShiftAmount::new(amount as u8)))
}

/// `register, number(register)`.
#[tactic(auto, unfolding(crate::specs::Statements::with_place))]
pub fn with_place(operands: Operands<&[u8]>) -> Result<(Register, Register, Immediate), LineFault>
    ensures { result ≡ spec.with_place (seen operands.entry) }
{
    let Operands::Two(first, place) = operands else {
        return Err(LineFault::OperandForm);
    };
    let first = register(first)?;
    let (base, number) = place_of(place)?;
    Ok((first, base, number))
}

#[tactic(auto, unfolding(crate::specs::Statements::with_upper))]
pub fn with_upper(operands: Operands<&[u8]>) -> Result<(Register, UpperImmediate), LineFault>
    ensures { result ≡ spec.with_upper (seen operands.entry) }
{
    let Operands::Two(rd, number) = operands else {
        return Err(LineFault::OperandForm);
    };
    let rd = register(rd)?;
    let number = natural(number, 1_048_575)?;
    Ok((rd, UpperImmediate::new(number as u32)))
}

/// `rd, number(rs1)` or `rd, rs1, number`.
pub fn jalr(operands: Operands<&[u8]>) -> Result<(Register, Register, Immediate), LineFault>
    ensures { result ≡ spec.jalr (seen operands.entry) }
{
    match operands {
        Operands::Two(rd, place) => with_place(Operands::Two(rd, place)),
        other => with_immediate(other),
    }
}

fn fence_set(text: &[u8]) -> Result<u8, LineFault>
    ensures set { result ≡ spec.fence_set text.now }
    ensures within { IfOk result (λ n. n < 16) }
{
    fence_set_of(text).ok_or(LineFault::OperandForm)
}

#[tactic(auto, unfolding(crate::specs::Statements::fence))]
pub fn fence(operands: Operands<&[u8]>) -> Result<FenceBits, LineFault>
    ensures { result ≡ spec.fence (seen operands.entry) }
{
    match operands {
        Operands::Zero => Ok(FenceBits::new(255)),
        Operands::Two(before, behind) => {
            let before = u16::from(fence_set(before)?);
            let behind = u16::from(fence_set(behind)?);
            Ok(FenceBits::new(before * 16 + behind))
        }
        _ => Err(LineFault::OperandForm),
    }
}

pub fn alone(operands: Operands<&[u8]>) -> Result<(), LineFault>
    ensures { Gives (λ x. x) result (spec.alone tt (seen operands.entry)) }
{
    match operands {
        Operands::Zero => Ok(()),
        _ => Err(LineFault::OperandForm),
    }
}
