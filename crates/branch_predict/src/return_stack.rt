//! A stack of return addresses.

ghost use Rattle.std.specs.Prelude.{◌≡◌, [], IfSome};
ghost use Rattle.branch_predict.specs.Predictor.{after_push, after_pop, top_of};

use arrayvec::ArrayVec;
use std::marker::Model;

/// At most 8 return addresses. A contract sees their list, the newest last.
#[derive(Drop)]
pub(crate) struct ReturnStack {
    addresses: ArrayVec<u64, 8>,
}

impl Model for ReturnStack {
    ghost use Rattle.std.specs.Prelude.{List, ℕ};

    ghost Value = { List ℕ };

    ghost view = { λ s. s.addresses.items };
}

impl ReturnStack {
    /// The empty stack.
    pub(crate) fn new() -> ReturnStack
        ensures { result ≡ [] }
    {
        ReturnStack {
            addresses: ArrayVec::new(),
        }
    }

    /// Pushes an address. Where the stack is full its oldest address falls out.
    pub(crate) fn push(&mut self, address: u64)
        ensures { self.new ≡ after_push self.old address }
    {
        if self.addresses.is_full() {
            self.addresses.remove(0);
        }
        self.addresses.push(address);
    }

    /// Removes the newest address and returns it, or `None` where the stack is empty.
    pub(crate) fn pop(&mut self) -> Option<u64>
        ensures value { result ≡ top_of self.old }
        ensures rest { self.new ≡ after_pop self.old }
    {
        self.addresses.pop()
    }
}
