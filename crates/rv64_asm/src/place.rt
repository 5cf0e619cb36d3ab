//! Where the next line goes.

ghost use Rattle.std.specs.Prelude.{◌≡◌, ◌≤◌, IfSome, IfOk, OnOk, Ok, false, option_map};
ghost use Rattle.rv64_asm.specs.Places as spec;
ghost use Rattle.rv64_asm.specs.Places.{IsWithinPages};

use crate::fault::LineFault;
use crate::labels::Labels;
use crate::statement::{Item, Statement, body_of};
use crate::words::Part;
use paged_memory::{DATA_START, MOST_BYTES, MOST_WORDS, TEXT_START};
use rv64_decode::StoreWidth;
use std::alloc::Allocator;

/// The part that the next line goes to, and how much each part has so far.
#[derive(Clone, Copy)]
pub struct Place {
    pub part: Part,
    pub words: usize,
    pub bytes: usize,
}

pub fn bytes_in(width: StoreWidth) -> usize
    ensures same { result ≡ spec.bytes_in width }
    ensures within { result ≤ 8 }
{
    match width {
        StoreWidth::Byte => 1,
        StoreWidth::Half => 2,
        StoreWidth::Word => 4,
        StoreWidth::Double => 8,
    }
}

impl Place {
    /// The address of what follows.
    pub fn address(self) -> u64
        requires { IsWithinPages self }
        ensures { result ≡ spec.address self }
    {
        match self.part {
            Part::Text => TEXT_START + 4 * self.words as u64,
            Part::Data => DATA_START + self.bytes as u64,
        }
    }

    /// The place behind so many words and bytes more, unless they go over.
    fn further(self, words: usize, bytes: usize) -> Option<Place>
        requires { IsWithinPages self }
        ensures place { result ≡ spec.further self words bytes }
        ensures within { IfSome result IsWithinPages }
    {
        if words > MOST_WORDS - self.words || bytes > MOST_BYTES - self.bytes {
            return None;
        }
        Some(Place {
            part: self.part,
            words: self.words + words,
            bytes: self.bytes + bytes,
        })
    }

    fn after_item(self, item: Item) -> Option<Place>
        requires { IsWithinPages self }
        ensures place { result ≡ spec.after_item self item }
        ensures within { IfSome result IsWithinPages }
    {
        match item {
            Item::Nothing => Some(self),
            Item::Instruction(_) => self.further(1, 0),
            Item::Word(_) => self.further(1, 0),
            Item::Number { width, .. } => self.further(0, bytes_in(width)),
            Item::Zeros(count) => self.further(0, count as usize),
        }
    }

    /// The place behind a statement, unless it goes over.
    pub fn after<N>(self, statement: &Statement<N>) -> Option<Place>
        requires { IsWithinPages self }
        ensures place { result ≡ spec.after self statement.now }
        ensures within { IfSome result IsWithinPages }
    {
        match statement {
            Statement::Enter(part) => Some(Place {
                part: *part,
                words: self.words,
                bytes: self.bytes,
            }),
            Statement::Give(item) => self.after_item(*item),
            Statement::Branch { .. } => self.further(1, 0),
            Statement::Jump { .. } => self.further(1, 0),
        }
    }
}

fn is_twice<A: Allocator>(labels: &Labels<A>, name: Option<&[u8]>) -> bool
    ensures { result ≡ spec.is_twice labels.now (option_map (λ n. n.now) name.entry) }
{
    match name {
        Some(name) => labels.address_of(name).is_some(),
        None => false,
    }
}

/// The place behind a line of this label and this behind the label, or the first fault that the
/// line has by itself and by those before it.
pub fn next_place<A: Allocator>(
    place: Place,
    labels: &Labels<A>,
    label: Option<&[u8]>,
    body: &[u8],
) -> Result<Place, LineFault>
    requires { IsWithinPages place }
    ensures next { result ≡ spec.place_after (record { place = place; labels = labels.now }) (option_map (λ n. n.now) label.entry) body.now }
    ensures within { IfOk result IsWithinPages }
    ensures new { OnOk result (spec.is_twice labels.now (option_map (λ n. n.now) label.entry) ≡ false) }
{
    match body_of(place.part, body) {
        Err(fault) => Err(fault),
        Ok(statement) => {
            if is_twice(labels, label) {
                return Err(LineFault::LabelTwice);
            }
            place.after(&statement).ok_or(LineFault::TooManyPages)
        }
    }
}
