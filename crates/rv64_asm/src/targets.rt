//! Branches and jumps, whose targets are labels or addresses.

ghost use Rattle.rv64_asm.specs.Statements as spec;
ghost use Rattle.rv64_asm.specs.Returned.{Gives, named};
ghost use Rattle.rv64_asm.specs.Returned.{seen};

use crate::fault::LineFault;
use crate::lexing::Operands;
use crate::operands::{register, target_of};
use crate::statement::Statement;
use rv64_decode::{BranchCondition, Register};

/// `rs1, rs2, target`.
#[tactic(auto, unfolding(crate::specs::Statements::branch))]
pub fn branch(
    condition: BranchCondition,
    operands: Operands<&[u8]>,
) -> Result<Statement<&[u8]>, LineFault>
    ensures { Gives named result (spec.branch condition (seen operands.entry)) }
{
    let Operands::Three(rs1, rs2, target) = operands else {
        return Err(LineFault::OperandForm);
    };
    let rs1 = register(rs1)?;
    let rs2 = register(rs2)?;
    let target = target_of(target)?;
    Ok(Statement::Branch {
        condition,
        rs1,
        rs2,
        target,
    })
}

/// `rs1, target`, which compares with x0.
#[tactic(auto, unfolding(crate::specs::Statements::branch_zero))]
pub fn branch_zero(
    condition: BranchCondition,
    operands: Operands<&[u8]>,
) -> Result<Statement<&[u8]>, LineFault>
    ensures { Gives named result (spec.branch_zero condition (seen operands.entry)) }
{
    let Operands::Two(rs1, target) = operands else {
        return Err(LineFault::OperandForm);
    };
    let rs1 = register(rs1)?;
    let target = target_of(target)?;
    Ok(Statement::Branch {
        condition,
        rs1,
        rs2: Register::new(0),
        target,
    })
}

/// `rd, target`.
#[tactic(auto, unfolding(crate::specs::Statements::jal))]
pub fn jal(operands: Operands<&[u8]>) -> Result<Statement<&[u8]>, LineFault>
    ensures { Gives named result (spec.jal (seen operands.entry)) }
{
    let Operands::Two(rd, target) = operands else {
        return Err(LineFault::OperandForm);
    };
    let rd = register(rd)?;
    let target = target_of(target)?;
    Ok(Statement::Jump { rd, target })
}

/// `target`, which links to x0.
#[tactic(auto, unfolding(crate::specs::Statements::jump))]
pub fn jump(operands: Operands<&[u8]>) -> Result<Statement<&[u8]>, LineFault>
    ensures { Gives named result (spec.jump (seen operands.entry)) }
{
    let Operands::One(target) = operands else {
        return Err(LineFault::OperandForm);
    };
    let target = target_of(target)?;
    Ok(Statement::Jump {
        rd: Register::new(0),
        target,
    })
}
