//! Statements with their targets found.

ghost use Rattle.std.specs.Prelude.{◌≡◌, ℤ, pos, negsuc, ◌%◌, ◌≤ℤ◌, Ok, IfOk, unsigned_abs};
ghost use Rattle.rv64_asm.specs.Written as spec;
ghost use Rattle.rv64_asm.specs.Returned.{named, target_named};

use crate::fault::LineFault;
use crate::labels::Labels;
use crate::statement::{Item, Statement, Target};
use rv64_decode::{BranchOffset, Insn, JumpOffset};
use std::alloc::Allocator;

fn target_address<A: Allocator>(
    labels: &Labels<A>,
    target: &Target<&[u8]>,
) -> Result<u64, LineFault>
    ensures { result ≡ spec.target_address labels.now (target_named target.now) }
{
    match target {
        Target::Label(name) => labels.address_of(name).ok_or(LineFault::UnknownLabel),
        Target::Address(address) => Ok(*address),
    }
}

/// How far a target lies from pc, as 64 bits with a sign.
fn distance(pc: u64, target: u64) -> i64
    ensures { result ≡ spec.distance pc target }
{
    target.wrapping_sub(pc).cast_signed()
}

/// An offset that is even and in range.
fn offset_in(low: i64, high: i64, offset: i64) -> Result<i64, LineFault>
    ensures given { result ≡ spec.offset_in low high offset }
    ensures low { IfOk result (λ x. low ≤ℤ x) }
    ensures high { IfOk result (λ x. x ≤ℤ high) }
    ensures even { IfOk result (λ x. unsigned_abs x % 2 ≡ 0) }
{
    if low <= offset && offset <= high && offset.unsigned_abs() % 2 == 0 {
        Ok(offset)
    } else {
        Err(LineFault::OffsetOutOfRange)
    }
}

/// The offset of a target from pc, even and in range.
fn offset_to<A: Allocator>(
    labels: &Labels<A>,
    pc: u64,
    low: i64,
    high: i64,
    target: &Target<&[u8]>,
) -> Result<i64, LineFault>
    ensures given { result ≡ spec.offset_to labels.now pc low high (target_named target.now) }
    ensures low { IfOk result (λ x. low ≤ℤ x) }
    ensures high { IfOk result (λ x. x ≤ℤ high) }
    ensures even { IfOk result (λ x. unsigned_abs x % 2 ≡ 0) }
{
    let address = target_address(labels, target)?;
    offset_in(low, high, distance(pc, address))
}

fn branch_offset<A: Allocator>(
    labels: &Labels<A>,
    pc: u64,
    target: &Target<&[u8]>,
) -> Result<BranchOffset, LineFault>
    ensures { result ≡ spec.offset_to labels.now pc (negsuc 4095) (pos 4094) (target_named target.now) }
{
    let offset = offset_to(labels, pc, -4096, 4094, target)?;
    Ok(BranchOffset::new(offset as i16))
}

fn jump_offset<A: Allocator>(
    labels: &Labels<A>,
    pc: u64,
    target: &Target<&[u8]>,
) -> Result<JumpOffset, LineFault>
    ensures { result ≡ spec.offset_to labels.now pc (negsuc 1048575) (pos 1048574) (target_named target.now) }
{
    let offset = offset_to(labels, pc, -1_048_576, 1_048_574, target)?;
    Ok(JumpOffset::new(offset as i32))
}

/// What a statement gives at pc, labels replaced by their addresses.
#[tactic(auto, unfolding(crate::specs::Written::resolve))]
pub fn resolve<A: Allocator>(
    labels: &Labels<A>,
    pc: u64,
    statement: &Statement<&[u8]>,
) -> Result<Item, LineFault>
    ensures { result ≡ spec.resolve labels.now pc (named statement.now) }
{
    match statement {
        Statement::Enter(_) => Ok(Item::Nothing),
        Statement::Give(item) => Ok(*item),
        Statement::Branch {
            condition,
            rs1,
            rs2,
            target,
        } => {
            let offset = branch_offset(labels, pc, target)?;
            Ok(Item::Instruction(Insn::Branch {
                condition: *condition,
                rs1: *rs1,
                rs2: *rs2,
                offset,
            }))
        }
        Statement::Jump { rd, target } => {
            let offset = jump_offset(labels, pc, target)?;
            Ok(Item::Instruction(Insn::Jal { rd: *rd, offset }))
        }
    }
}
