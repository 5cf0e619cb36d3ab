//! What a line says: the item that it gives, or a branch or a jump to a target.

ghost use Rattle.std.specs.Prelude.{◌≡◌, ◌^◌, ◌<◌, Ok, IfOk, option_map};
ghost use Rattle.rv64_asm.specs.Statements as spec;
ghost use Rattle.rv64_asm.specs.Returned.{Gives, named};
ghost use Rattle.rv64_asm.specs.Returned.{seen};

use crate::fault::LineFault;
use crate::instruction::instruction_of;
use crate::lexing::{Operands, code_of, cut, operands_of, trim, word_of};
use crate::names::is_name;
use crate::numbers::{natural, number_between};
use crate::operands::alone;
use crate::targets::{branch, branch_zero, jal, jump};
use crate::words::{Kind, Part, kind_of};
use paged_memory::MOST_BYTES;
use rv64_decode::{BranchCondition, Insn, Register, StoreWidth};
use std::alloc::AllocError;

/// Where a branch goes: to a label of this name, or to an address.
pub enum Target<N> {
    Label(N),
    Address(u64),
}

impl<N: Copy> Clone for Target<N> {
    ghost is_clone = { λ x y. y ≡ x };

    ghost is_infallible = { λ _. Unit {0} };

    fn clone(&self) -> Result<Target<N>, AllocError> {
        Ok(*self)
    }
}

impl<N: Copy> Copy for Target<N> {}

/// What a line gives once its target is known.
#[derive(Clone, Copy)]
pub enum Item {
    Nothing,
    Instruction(Insn),
    /// A word of the text by its bits.
    Word(u32),
    /// A number of the data, its low bytes as many as the width has.
    Number { width: StoreWidth, bits: u64 },
    /// So many bytes of 0.
    Zeros(u32),
}

/// What a line says. A label is named by `N`.
pub enum Statement<N> {
    Enter(Part),
    Give(Item),
    Branch {
        condition: BranchCondition,
        rs1: Register,
        rs2: Register,
        target: Target<N>,
    },
    Jump {
        rd: Register,
        target: Target<N>,
    },
}

impl<N: Copy> Clone for Statement<N> {
    ghost is_clone = { λ x y. y ≡ x };

    ghost is_infallible = { λ _. Unit {0} };

    fn clone(&self) -> Result<Statement<N>, AllocError> {
        Ok(*self)
    }
}

impl<N: Copy> Copy for Statement<N> {}

/// One number that the width holds, with or without a sign, as its bits.
#[tactic(auto, unfolding(crate::specs::Statements::number_of_width))]
fn number_of_width(width: StoreWidth, operands: Operands<&[u8]>) -> Result<u64, LineFault>
    ensures given { result ≡ spec.number_of_width width (seen operands.entry) }
    ensures within { IfOk result (λ n. width ≡ StoreWidth.Word → n < 2 ^ 32) }
{
    let Operands::One(number) = operands else {
        return Err(LineFault::OperandForm);
    };
    match width {
        StoreWidth::Byte => number_between(number, -128, 255),
        StoreWidth::Half => number_between(number, -32768, 65535),
        StoreWidth::Word => number_between(number, -2_147_483_648, 4_294_967_295),
        StoreWidth::Double => number_between(number, i64::MIN, u64::MAX),
    }
}

/// `.zero n`: at most 256 pages of bytes.
#[tactic(auto, unfolding(crate::specs::Statements::zeros))]
fn zeros(operands: Operands<&[u8]>) -> Result<Statement<&[u8]>, LineFault>
    ensures { Gives named result (spec.zeros (seen operands.entry)) }
{
    let Operands::One(count) = operands else {
        return Err(LineFault::OperandForm);
    };
    let count = natural(count, MOST_BYTES as u64)?;
    Ok(Statement::Give(Item::Zeros(count as u32)))
}

/// A number directive. `.word` alone stands in the text.
#[tactic(auto, unfolding(crate::specs::Statements::number))]
fn number(
    part: Part,
    width: StoreWidth,
    operands: Operands<&[u8]>,
) -> Result<Statement<&[u8]>, LineFault>
    ensures { Gives named result (spec.number part width (seen operands.entry)) }
{
    match (part, width) {
        (Part::Data, width) => {
            let bits = number_of_width(width, operands)?;
            Ok(Statement::Give(Item::Number { width, bits }))
        }
        (Part::Text, StoreWidth::Word) => {
            let bits = number_of_width(StoreWidth::Word, operands)?;
            Ok(Statement::Give(Item::Word(bits as u32)))
        }
        (Part::Text, _) => Err(LineFault::OperandForm),
    }
}

/// An instruction, with or without a target, which stands in the text.
#[tactic(auto, unfolding(crate::specs::Statements::text_statement))]
fn text_statement(kind: Kind, operands: Operands<&[u8]>) -> Result<Statement<&[u8]>, LineFault>
    ensures { Gives named result (spec.text_statement kind (seen operands.entry)) }
{
    match kind {
        Kind::Plain(shape) => {
            let insn = instruction_of(shape, operands)?;
            Ok(Statement::Give(Item::Instruction(insn)))
        }
        Kind::Branch(condition) => branch(condition, operands),
        Kind::BranchZero(condition) => branch_zero(condition, operands),
        Kind::Jal => jal(operands),
        Kind::J => jump(operands),
        _ => Err(LineFault::OperandForm),
    }
}

#[tactic(auto, unfolding(crate::specs::Statements::statement_of))]
fn statement_of(
    part: Part,
    kind: Kind,
    operands: Operands<&[u8]>,
) -> Result<Statement<&[u8]>, LineFault>
    ensures { Gives named result (spec.statement_of part kind (seen operands.entry)) }
{
    match (part, kind) {
        (_, Kind::Enter(next)) => {
            alone(operands)?;
            Ok(Statement::Enter(next))
        }
        (part, Kind::Number(width)) => number(part, width, operands),
        (Part::Data, Kind::Zero) => zeros(operands),
        (Part::Text, kind) => text_statement(kind, operands),
        (Part::Data, _) => Err(LineFault::OperandForm),
    }
}

/// What stands behind the label of a line says this in a part.
#[tactic(auto, unfolding(crate::specs::Statements::body_of))]
pub fn body_of(part: Part, body: &[u8]) -> Result<Statement<&[u8]>, LineFault>
    ensures { Gives named result (spec.body_of part body.now) }
{
    if body.is_empty() {
        return Ok(Statement::Give(Item::Nothing));
    }
    let (word, rest) = word_of(body);
    let kind = kind_of(word).ok_or(LineFault::UnknownWord)?;
    statement_of(part, kind, operands_of(rest))
}

/// The label of a line, if it has one, and what stands behind it. `name:` ends at the first colon.
#[tactic(auto, unfolding(crate::specs::Statements::split_line))]
pub fn split_line(line: &[u8]) -> (Option<&[u8]>, &[u8])
    ensures { (option_map (λ n. n.now) result.0, result.1.now) ≡ spec.split_line line.now }
{
    let body = trim(code_of(line));
    match cut(body, b':') {
        Some((name, rest)) if is_name(name) => (Some(name), trim(rest)),
        _ => (None, body),
    }
}

/// What a line says in a part, behind its label.
pub fn statement_at(part: Part, line: &[u8]) -> Result<Statement<&[u8]>, LineFault>
    ensures { Gives named result (spec.line_of part line.now) }
{
    let (_, body) = split_line(line);
    body_of(part, body)
}
