//! Small programs.

use rv64_asm::Program;
use std::alloc::{AllocError, Global};

/// Counts x5 from 10 down to 0: 21 instructions and an ECALL.
pub const COUNTDOWN: [u32; 4] = [0x00A0_0293, 0xFFF2_8293, 0xFE02_9EE3, 0x0000_0073];

/// A program of copies of the words and bytes.
pub fn program(alloc: Global, words: &[u32], bytes: &[u8]) -> Result<Program, AllocError> {
    Ok(Program::new(
        Vec::from_slice(alloc, words)?,
        Vec::from_slice(alloc, bytes)?,
    ))
}
