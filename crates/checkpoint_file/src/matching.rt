//! Whether a text is that of marks: their lines are written and compared.

ghost use Rattle.std.specs.Prelude.{◌≡◌, ◌*◌, ◌++◌, ◌∷◌, ◌↔◌, [], List, ℕ, IfSome, IsSomeAnd, IsTrue, drop, length};
ghost use Rattle.std.specs.Fmt.{decimal};
ghost use Rattle.hex.specs.Hex.{encode_lower};
ghost use Rattle.checkpoint_file.specs.Contexts.{context_text, page_lines, register_lines};
ghost use Rattle.checkpoint_file.specs.Lines.{digest_line, origin_line, page_line, register_line, seal_line, version_line, word_line};
ghost use Rattle.checkpoint_file.specs.Texts.{body, context_of, data_pages, mark_text, marks_text};

use crate::reading::{Form, after, after_number};
use checkpoint::Mark;
use hart_step::Hart;
use itoa::Buffer;
use join_law::Eight;
use paged_memory::{DATA_START, Page};
use std::alloc::Allocator;

// What follows the digits of bytes, which are written to `room`.
fn after_digits<'a>(bytes: &'a [u8], value: &[u8], room: &mut [u8]) -> Option<&'a [u8]>
    requires { length room.old ≡ 2 * length value.now }
    ensures found { IfSome result (λ rest. bytes.now ≡ encode_lower value.now ++ rest.now) }
    ensures only { (rest : List ℕ) → bytes.now ≡ encode_lower value.now ++ rest
        → IsSomeAnd result (λ left. left.now ≡ rest) }
{
    let _ = hex::encode_to_slice(value, room);
    after(bytes, room)
}

// What follows a line of a label and a number.
fn after_number_line<'a>(bytes: &'a [u8], label: &[u8], number: u64) -> Option<&'a [u8]>
    ensures found { IfSome result (λ rest. bytes.now ≡ (label.now ++ (decimal number ++ (10 ∷ []))) ++ rest.now) }
    ensures only { (rest : List ℕ) → bytes.now ≡ (label.now ++ (decimal number ++ (10 ∷ []))) ++ rest
        → IsSomeAnd result (λ left. left.now ≡ rest) }
{
    let digits = after(bytes, label)?;
    after_number(digits, number)
}

// What follows a line of a label and sixteen digits.
fn after_word_line<'a>(bytes: &'a [u8], label: &[u8], word: u64) -> Option<&'a [u8]>
    ensures found { IfSome result (λ rest. bytes.now ≡ word_line label.now word ++ rest.now) }
    ensures only { (rest : List ℕ) → bytes.now ≡ word_line label.now word ++ rest
        → IsSomeAnd result (λ left. left.now ≡ rest) }
{
    let mut room = [0u8; 16];
    let digits = after(bytes, label)?;
    let end = after_digits(digits, &word.to_be_bytes(), &mut room)?;
    after(end, b"\n")
}

// What follows the line of a register.
fn after_register(bytes: &[u8], number: usize, value: u64) -> Option<&[u8]>
    ensures found { IfSome result (λ rest. bytes.now ≡ register_line number value ++ rest.now) }
    ensures only { (rest : List ℕ) → bytes.now ≡ register_line number value ++ rest
        → IsSomeAnd result (λ left. left.now ≡ rest) }
{
    let mut buffer = Buffer::new();
    let digits = after(bytes, b"x")?;
    let blank = after(digits, buffer.format(number).as_bytes())?;
    after_word_line(blank, b" ", value)
}

// What follows the lines of x1 to x31.
fn after_registers<'a>(bytes: &'a [u8], registers: &[u64; 32]) -> Option<&'a [u8]>
    ensures found { IfSome result (λ rest. bytes.now ≡ register_lines 1 (drop 1 registers.now) ++ rest.now) }
    ensures only { (rest : List ℕ) → bytes.now ≡ register_lines 1 (drop 1 registers.now) ++ rest
        → IsSomeAnd result (λ left. left.now ≡ rest) }
{
    let mut rest = bytes;
    for number in 1..32 {
        rest = after_register(rest, number, registers[number])?;
    }
    Some(rest)
}

// What follows the line of a page.
fn after_page<'a>(bytes: &'a [u8], page: &Page, room: &mut [u8; 8192]) -> Option<&'a [u8]>
    ensures found { IfSome result (λ rest. bytes.now ≡ page_line page.now ++ rest.now) }
    ensures only { (rest : List ℕ) → bytes.now ≡ page_line page.now ++ rest
        → IsSomeAnd result (λ left. left.now ≡ rest) }
{
    let mut digits = [0u8; 16];
    let address = after(bytes, b"page ")?;
    let blank = after_digits(address, &page.address().to_be_bytes(), &mut digits)?;
    let content = after(blank, b" ")?;
    let end = after_digits(content, page.bytes(), room)?;
    after(end, b"\n")
}

// What follows the line of a page, if it is a data page.
fn after_if_data<'a>(bytes: &'a [u8], page: &Page, room: &mut [u8; 8192]) -> Option<&'a [u8]>
    ensures found { IfSome result (λ rest. bytes.now ≡ page_lines (data_pages (page.now ∷ [])) ++ rest.now) }
    ensures only { (rest : List ℕ) → bytes.now ≡ page_lines (data_pages (page.now ∷ [])) ++ rest
        → IsSomeAnd result (λ left. left.now ≡ rest) }
{
    if page.address() < DATA_START {
        return Some(bytes);
    }
    let rest = after_page(bytes, page, room)?;
    Some(rest)
}

// What follows the lines of the data pages among pages.
fn after_pages<'a>(bytes: &'a [u8], pages: &[Page], room: &mut [u8; 8192]) -> Option<&'a [u8]>
    ensures found { IfSome result (λ rest. bytes.now ≡ page_lines (data_pages pages.now) ++ rest.now) }
    ensures only { (rest : List ℕ) → bytes.now ≡ page_lines (data_pages pages.now) ++ rest
        → IsSomeAnd result (λ left. left.now ≡ rest) }
{
    let mut rest = bytes;
    for page in pages {
        rest = after_if_data(rest, page, room)?;
    }
    Some(rest)
}

// What follows the lines of a context in a state.
fn after_context<'a, A: Allocator>(
    bytes: &'a [u8],
    number: u64,
    count: u64,
    hart: &Hart<A>,
    room: &mut [u8; 8192],
) -> Option<&'a [u8]>
    ensures found { IfSome result (λ rest. bytes.now ≡ context_text number (context_of count hart.now) ++ rest.now) }
    ensures only { (rest : List ℕ) → bytes.now ≡ context_text number (context_of count hart.now) ++ rest
        → IsSomeAnd result (λ left. left.now ≡ rest) }
{
    let heading = after_number_line(bytes, b"context ", number)?;
    let place = after_number_line(heading, b"count ", count)?;
    let registers = after_word_line(place, b"pc ", hart.pc())?;
    let pages = after_registers(registers, hart.regs())?;
    let rest = after_pages(pages, hart.memory().pages(), room)?;
    Some(rest)
}

// What follows the lines of a mark.
fn after_mark<'a, A: Allocator>(
    bytes: &'a [u8],
    mark: &Mark<A>,
    room: &mut [u8; 8192],
) -> Option<&'a [u8]>
    ensures found { IfSome result (λ rest. bytes.now ≡ mark_text mark.now ++ rest.now) }
    ensures only { (rest : List ℕ) → bytes.now ≡ mark_text mark.now ++ rest
        → IsSomeAnd result (λ left. left.now ≡ rest) }
{
    let number = mark.context().index() as u64;
    let rest = after_context(bytes, number, mark.count(), mark.state(), room)?;
    Some(rest)
}

// What follows the line of a digest.
fn after_digest_line<'a>(bytes: &'a [u8], label: &[u8], digest: &[u8; 32]) -> Option<&'a [u8]>
    ensures found { IfSome result (λ rest. bytes.now ≡ digest_line label.now digest.now ++ rest.now) }
    ensures only { (rest : List ℕ) → bytes.now ≡ digest_line label.now digest.now ++ rest
        → IsSomeAnd result (λ left. left.now ≡ rest) }
{
    let mut room = [0u8; 64];
    let digits = after(bytes, label)?;
    let end = after_digits(digits, digest, &mut room)?;
    after(end, b"\n")
}

// What follows the lines of eight marks.
fn after_marks<'a, A: Allocator>(bytes: &'a [u8], marks: &Eight<Mark<A>>) -> Option<&'a [u8]>
    ensures found { IfSome result (λ rest. bytes.now ≡ marks_text marks.now ++ rest.now) }
    ensures only { (rest : List ℕ) → bytes.now ≡ marks_text marks.now ++ rest
        → IsSomeAnd result (λ left. left.now ≡ rest) }
{
    let mut room = [0u8; 8192];
    let n1 = after_mark(bytes, &marks.c0, &mut room)?;
    let n2 = after_mark(n1, &marks.c1, &mut room)?;
    let n3 = after_mark(n2, &marks.c2, &mut room)?;
    let n4 = after_mark(n3, &marks.c3, &mut room)?;
    let n5 = after_mark(n4, &marks.c4, &mut room)?;
    let n6 = after_mark(n5, &marks.c5, &mut room)?;
    let n7 = after_mark(n6, &marks.c6, &mut room)?;
    let n8 = after_mark(n7, &marks.c7, &mut room)?;
    Some(n8)
}

// What follows a text of marks.
fn after_text<'a, A: Allocator>(
    text: &'a [u8],
    form: &Form,
    marks: &Eight<Mark<A>>,
) -> Option<&'a [u8]>
    ensures found { IfSome result (λ rest. text.now ≡ version_line ++ (origin_line form.now.digest
        ++ (marks_text marks.now ++ (seal_line form.now.seal ++ rest.now)))) }
    ensures only { (rest : List ℕ) → text.now ≡ version_line ++ (origin_line form.now.digest
        ++ (marks_text marks.now ++ (seal_line form.now.seal ++ rest)))
        → IsSomeAnd result (λ left. left.now ≡ rest) }
{
    let origin = after(text, b"smt-lab checkpoint 1\n")?;
    let contexts = after_digest_line(origin, b"origin ", &form.digest)?;
    let end = after_marks(contexts, marks)?;
    after_digest_line(end, b"seal ", &form.seal)
}

/// Whether a text is that of marks, with the digest and the seal of a form.
pub(crate) fn is_text<A: Allocator>(text: &[u8], form: &Form, marks: &Eight<Mark<A>>) -> bool
    ensures { IsTrue result ↔ (text.now ≡ body form.now.digest (marks_text marks.now) ++ seal_line form.now.seal) }
{
    match after_text(text, form, marks) {
        Some(rest) => rest.is_empty(),
        None => false,
    }
}
