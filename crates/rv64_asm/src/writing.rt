//! The second pass: the words and bytes of the lines, targets found among the labels.

ghost use Rattle.std.specs.Int.{to_le_bytes, w64};
ghost use Rattle.std.specs.Prelude.{◌≡◌, ◌≤◌, ◌++◌, Ok, Err, length, replicate, take, vec_len, IfOk, IfErr, OnOk};
ghost use Rattle.std.specs.Str.Lines.{lines};
ghost use Rattle.paged_memory.specs.Regions.{most_bytes};
ghost use Rattle.rv64_asm.specs.Places.{IsWithinPages, StandBelow, behind, bytes_in as width_of};
ghost use Rattle.rv64_asm.specs.Passes as spec;
ghost use Rattle.rv64_asm.specs.Passes.{Appends};
ghost use Rattle.rv64_asm.specs.Assembled.{IsProgram};
ghost use Rattle.rv64_asm.specs.Limits.{IsWithinLimits};
ghost use Rattle.rv64_asm.specs.Passes.{IsTargetRefusal};

use crate::fault::{AsmFault, LineFault};
use crate::labels::Labels;
use crate::layout::start;
use crate::place::{Place, bytes_in};
use crate::program::Program;
use crate::resolving::resolve;
use crate::statement::{Item, statement_at};
use rv64_decode::{StoreWidth, encode};
use std::alloc::{AllocError, Allocator};

/// The place behind a line, and what it gives.
#[tactic(auto, unfolding(crate::specs::Passes::emit))]
fn emit<A: Allocator>(
    place: Place,
    labels: &Labels<A>,
    line: &[u8],
) -> Result<(Place, Item), LineFault>
    requires { IsWithinPages place }
    ensures given { result ≡ spec.emit place labels.now line.now }
    ensures within { IfOk result (λ x. IsWithinPages x.0) }
{
    match statement_at(place.part, line) {
        Err(fault) => Err(fault),
        Ok(statement) => {
            let item = resolve(labels, place.address(), &statement)?;
            let next = place.after(&statement).ok_or(LineFault::TooManyPages)?;
            Ok((next, item))
        }
    }
}

/// Puts the low bytes of a number behind those that are there, the lowest first.
fn write_number<A: Allocator>(
    bytes: &mut Vec<u8, A>,
    width: StoreWidth,
    bits: u64,
) -> Result<(), AllocError>
    ensures { OnOk result (bytes.new.items ≡ bytes.old.items ++ take (width_of width) (to_le_bytes w64 bits)) }
{
    bytes.extend_from_slice(&bits.to_le_bytes()[..bytes_in(width)])
}

/// Puts so many bytes of 0 behind those that are there.
fn write_zeros<A: Allocator>(bytes: &mut Vec<u8, A>, count: u32) -> Result<(), AllocError>
    requires { vec_len bytes.old ≤ most_bytes }
    ensures { OnOk result (bytes.new.items ≡ bytes.old.items ++ replicate count 0) }
{
    let end = bytes.len() + count as usize;
    bytes.resize(end, 0)
}

/// Puts what a line gives behind the words and bytes that are there.
fn write<A: Allocator>(
    words: &mut Vec<u32, A>,
    bytes: &mut Vec<u8, A>,
    item: Item,
) -> Result<(), AllocError>
    requires { vec_len bytes.old ≤ most_bytes }
    ensures { OnOk result (Appends item words.old.items words.new.items bytes.old.items bytes.new.items) }
{
    match item {
        Item::Nothing => {}
        Item::Instruction(insn) => words.push(encode(&insn))?,
        Item::Word(bits) => words.push(bits)?,
        Item::Number { width, bits } => write_number(bytes, width, bits)?,
        Item::Zeros(count) => write_zeros(bytes, count)?,
    }
    Ok(())
}

/// The program of a text whose lines stand, or its lowest fault of a target.
pub fn write_lines<A: Allocator + Copy>(
    alloc: A,
    text: &str,
    labels: &Labels<A>,
) -> Result<Program<A>, AsmFault>
    requires stand { StandBelow (lines text.now) (length (lines text.now)) }
    requires labels { labels.now ≡ (behind (lines text.now)).labels }
    ensures program { IfOk result (IsProgram (lines text.now) labels.now) }
    ensures limits { IfOk result IsWithinLimits }
    ensures refused { IfErr result (IsTargetRefusal (lines text.now)) }
{
    let mut place = start();
    let mut words = Vec::new(alloc);
    let mut bytes = Vec::new(alloc);
    let mut number = 0;
    for line in text.lines() {
        number += 1;
        match emit(place, labels, line.as_bytes()) {
            Ok((next, item)) => {
                write(&mut words, &mut bytes, item)?;
                place = next;
            }
            Err(fault) => {
                return Err(AsmFault::At {
                    fault,
                    line: number,
                });
            }
        }
    }
    Ok(Program::new(words, bytes))
}
