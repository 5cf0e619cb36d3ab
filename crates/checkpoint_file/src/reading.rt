//! The lines of a text, read from the front of a slice.

mod contexts;
mod counts;
mod digits;
mod form;
mod fronts;
mod pages;
mod registers;
mod version;
mod words;

pub(crate) use counts::after_number;
pub(crate) use form::{Form, form_of};
pub(crate) use fronts::after;
pub(crate) use version::is_other_version;
