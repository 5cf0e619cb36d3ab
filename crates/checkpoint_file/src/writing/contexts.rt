//! The lines of contexts, and all that is sealed.

ghost use Rattle.std.specs.Prelude.{◌≡◌, ◌∷◌, [], drop, false};
ghost use Rattle.checkpoint_file.specs.Contexts.{context_text, page_lines, register_lines};
ghost use Rattle.checkpoint_file.specs.Lines.{origin_line};
ghost use Rattle.checkpoint_file.specs.Texts.{body_of_marks, context_of, data_pages, digest_of, mark_text, marks_text};
ghost use Rattle.checkpoint_file.specs.Written.{Writes};

use crate::device::{Failed, Sink};
use crate::writing::lines::{
    put_bytes, put_digest_line, put_number_line, put_page, put_register, put_word_line,
};
use checkpoint::Mark;
use hart_step::Hart;
use join_law::Eight;
use paged_memory::{DATA_START, Page};
use sha2::Sha256;
use std::alloc::Allocator;

// Writes the lines of x1 to x31.
fn put_registers<W: Sink>(
    device: &mut W,
    hasher: &mut Sha256,
    registers: &[u64; 32],
) -> Result<(), Failed>
    requires { W.has_failed device.old ≡ false }
    ensures written { Writes (W.contents device.old) (W.contents device.new) (W.has_failed device.new)
        hasher.old hasher.new (register_lines 1 (drop 1 registers.now)) result }
    ensures name { W.name_of device.new ≡ W.name_of device.old }
{
    for number in 1..32 {
        put_register(device, hasher, number, registers[number])?;
    }
    Ok(())
}

// Writes the line of a page, if it is a data page.
fn put_if_data<W: Sink>(
    device: &mut W,
    hasher: &mut Sha256,
    page: &Page,
    room: &mut [u8; 8192],
) -> Result<(), Failed>
    requires { W.has_failed device.old ≡ false }
    ensures written { Writes (W.contents device.old) (W.contents device.new) (W.has_failed device.new)
        hasher.old hasher.new (page_lines (data_pages (page.now ∷ []))) result }
    ensures name { W.name_of device.new ≡ W.name_of device.old }
{
    if page.address() < DATA_START {
        return Ok(());
    }
    put_page(device, hasher, page, room)
}

// Writes the lines of the data pages among pages.
fn put_pages<W: Sink>(
    device: &mut W,
    hasher: &mut Sha256,
    pages: &[Page],
    room: &mut [u8; 8192],
) -> Result<(), Failed>
    requires { W.has_failed device.old ≡ false }
    ensures written { Writes (W.contents device.old) (W.contents device.new) (W.has_failed device.new)
        hasher.old hasher.new (page_lines (data_pages pages.now)) result }
    ensures name { W.name_of device.new ≡ W.name_of device.old }
{
    for page in pages {
        put_if_data(device, hasher, page, room)?;
    }
    Ok(())
}

// Writes the lines of a context in a state.
fn put_context<W: Sink, A: Allocator>(
    device: &mut W,
    hasher: &mut Sha256,
    number: u64,
    count: u64,
    hart: &Hart<A>,
    room: &mut [u8; 8192],
) -> Result<(), Failed>
    requires { W.has_failed device.old ≡ false }
    ensures written { Writes (W.contents device.old) (W.contents device.new) (W.has_failed device.new)
        hasher.old hasher.new (context_text number (context_of count hart.now)) result }
    ensures name { W.name_of device.new ≡ W.name_of device.old }
{
    put_number_line(device, hasher, b"context ", number)?;
    put_number_line(device, hasher, b"count ", count)?;
    put_word_line(device, hasher, b"pc ", hart.pc())?;
    put_registers(device, hasher, hart.regs())?;
    put_pages(device, hasher, hart.memory().pages(), room)?;
    Ok(())
}

// Writes the lines of a mark.
fn put_mark<W: Sink, A: Allocator>(
    device: &mut W,
    hasher: &mut Sha256,
    mark: &Mark<A>,
    room: &mut [u8; 8192],
) -> Result<(), Failed>
    requires { W.has_failed device.old ≡ false }
    ensures written { Writes (W.contents device.old) (W.contents device.new) (W.has_failed device.new)
        hasher.old hasher.new (mark_text mark.now) result }
    ensures name { W.name_of device.new ≡ W.name_of device.old }
{
    let number = mark.context().index() as u64;
    put_context(device, hasher, number, mark.count(), mark.state(), room)
}

// Writes the lines of eight marks.
fn put_marks<W: Sink, A: Allocator>(
    device: &mut W,
    hasher: &mut Sha256,
    marks: &Eight<Mark<A>>,
) -> Result<(), Failed>
    requires { W.has_failed device.old ≡ false }
    ensures written { Writes (W.contents device.old) (W.contents device.new) (W.has_failed device.new)
        hasher.old hasher.new (marks_text marks.now) result }
    ensures name { W.name_of device.new ≡ W.name_of device.old }
{
    let mut room = [0u8; 8192];
    put_mark(device, hasher, &marks.c0, &mut room)?;
    put_mark(device, hasher, &marks.c1, &mut room)?;
    put_mark(device, hasher, &marks.c2, &mut room)?;
    put_mark(device, hasher, &marks.c3, &mut room)?;
    put_mark(device, hasher, &marks.c4, &mut room)?;
    put_mark(device, hasher, &marks.c5, &mut room)?;
    put_mark(device, hasher, &marks.c6, &mut room)?;
    put_mark(device, hasher, &marks.c7, &mut room)?;
    Ok(())
}

// Writes the line of a mark's origin.
fn put_origin<W: Sink, A: Allocator>(
    device: &mut W,
    hasher: &mut Sha256,
    mark: &Mark<A>,
) -> Result<(), Failed>
    requires { W.has_failed device.old ≡ false }
    ensures written { Writes (W.contents device.old) (W.contents device.new) (W.has_failed device.new)
        hasher.old hasher.new (origin_line (digest_of mark.now.origin)) result }
    ensures name { W.name_of device.new ≡ W.name_of device.old }
{
    put_digest_line(device, hasher, b"origin ", &mark.origin().digest())
}

/// Writes all that is sealed of marks.
pub(crate) fn put_body<W: Sink, A: Allocator>(
    device: &mut W,
    hasher: &mut Sha256,
    marks: &Eight<Mark<A>>,
) -> Result<(), Failed>
    requires { W.has_failed device.old ≡ false }
    ensures written { Writes (W.contents device.old) (W.contents device.new) (W.has_failed device.new)
        hasher.old hasher.new (body_of_marks marks.now) result }
    ensures name { W.name_of device.new ≡ W.name_of device.old }
{
    put_bytes(device, hasher, b"smt-lab checkpoint 1\n")?;
    put_origin(device, hasher, &marks.c0)?;
    put_marks(device, hasher, marks)?;
    Ok(())
}
