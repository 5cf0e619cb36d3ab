//! The lines of a text, written to a sink and hashed beside.

mod contexts;
mod lines;

pub(crate) use contexts::put_body;
pub(crate) use lines::put_seal;
