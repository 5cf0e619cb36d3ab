//! The architectural state of a context, and where its fetch goes on.

ghost use Rattle.std.specs.Prelude.{◌≡◌, ◌≤◌, ◌^◌};
ghost use Rattle.core_view.specs.Flight.{is_open, pc_past};

use crate::track::Track;
use core_view::Status;
use paged_memory::Memory;
use std::alloc::Allocator;

impl<A: Allocator> Track<A> {
    /// Whether it runs.
    pub fn status(&self) -> Status
        ensures { result ≡ self.now.context.status }
    {
        self.status
    }

    /// How many instructions it has retired.
    pub fn count(&self) -> u64
        ensures { result ≡ self.now.context.count }
    {
        self.count
    }

    /// How many instructions it is to retire.
    pub fn target(&self) -> u64
        ensures value { result ≡ self.now.context.target }
        ensures bound { result ≤ 2 ^ 60 }
    {
        self.target
    }

    /// The registers after what was retired.
    pub fn registers(&self) -> &[u64; 32]
        ensures { result.now ≡ self.now.context.state.registers }
    {
        &self.registers
    }

    /// The pc after what was retired.
    pub fn pc(&self) -> u64
        ensures { result ≡ self.now.context.state.pc }
    {
        self.pc
    }

    /// The memory after what was retired.
    pub fn memory(&self) -> &Memory<A>
        ensures { result.now ≡ self.now.context.state.memory }
    {
        self.memory.plain()
    }

    /// The pc at which fetch goes on.
    pub fn fetch_pc(&self) -> u64
        ensures { result ≡ pc_past self.now.context.state.pc self.now.context.flight }
    {
        self.fetch_pc
    }

    /// Whether more can be fetched behind the youngest entry: it doesn't stop at fetch.
    pub fn is_open(&self) -> bool
        ensures { result ≡ is_open self.now.context.flight }
    {
        self.goes_on
    }
}
