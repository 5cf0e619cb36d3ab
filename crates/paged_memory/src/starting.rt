//! The pages of a program before its first step.

ghost use Rattle.std.specs.Prelude.{◌≡◌, ◌+◌, ◌-◌, ◌*◌, ◌<◌, ◌≤◌, ℕ, length, IfOk};
ghost use Rattle.paged_memory.specs.Start.{data_byte, pages_for, text_byte};
ghost use Rattle.paged_memory.specs.Layout.{page_in, IsPageOf};
ghost use Rattle.paged_memory.specs.Regions.{data_start, most_bytes, most_words, text_start};

use crate::{DATA_START, Page, TEXT_START, Width};
use std::alloc::{AllocError, Allocator};

/// Text page p, least byte of each word first; what the words do not fill is 0.
fn text_page(words: &[u32], p: usize) -> Page
    requires full { 1024 * p ≤ length words.now }
    requires small { length words.now ≤ most_words }
    ensures { IsPageOf text_start (text_byte words.now) p result }
{
    let mut page = Page::blank(TEXT_START + 4096 * p as u64);
    let count = (words.len() - 1024 * p).min(1024);
    for i in 0..count {
        page.put(4 * i, Width::Word, u64::from(words[1024 * p + i]));
    }
    page
}

/// Data page p; what the bytes do not fill is 0.
fn data_page(bytes: &[u8], p: usize) -> Page
    requires full { 4096 * p ≤ length bytes.now }
    requires small { length bytes.now ≤ most_bytes }
    ensures { IsPageOf data_start (data_byte bytes.now) p result }
{
    let mut page = Page::blank(DATA_START + 4096 * p as u64);
    let count = (bytes.len() - 4096 * p).min(4096);
    for i in 0..count {
        page.put(i, Width::Byte, u64::from(bytes[4096 * p + i]));
    }
    page
}

/// The text pages and then the data pages, and how many of text there are.
pub fn start_pages<A: Allocator>(
    alloc: A,
    words: &[u32],
    bytes: &[u8],
) -> Result<(usize, Vec<Page, A>), AllocError>
    requires words { length words.now ≤ most_words }
    requires bytes { length bytes.now ≤ most_bytes }
    ensures text { IfOk result (λ m. m.0 ≡ pages_for (4 * length words.now)) }
    ensures total { IfOk result (λ m. length m.1.items ≡ m.0 + pages_for (length bytes.now)) }
    ensures words { IfOk result (λ m. (p : ℕ) → p < m.0 →
        IsPageOf text_start (text_byte words.now) p (page_in m.1.items p)) }
    ensures bytes { IfOk result (λ m. (p : ℕ) → m.0 ≤ p → p < length m.1.items →
        IsPageOf data_start (data_byte bytes.now) (p - m.0) (page_in m.1.items p)) }
{
    let text = words.len().div_ceil(1024);
    let data = bytes.len().div_ceil(4096);
    let mut pages = Vec::with_capacity(alloc, text + data)?;
    for p in 0..text {
        pages.push(text_page(words, p))?;
    }
    for q in 0..data {
        pages.push(data_page(bytes, q))?;
    }
    Ok((text, pages))
}
