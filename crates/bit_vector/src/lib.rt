//! Words of 64 bits as vectors of bits: a bit a place, bit 0 for the first place.
#![tactic(auto)]

mod places;
mod slots;
mod turns;

pub use places::{
    assign, both, count, first, has_from, has_more, last, lowest, next, push, up_to_first,
    without_first, without_first_of_each,
};
pub use slots::{clear_slot, set_slot, turn, turn_eight};
pub use turns::after_first;
