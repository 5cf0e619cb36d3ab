//! Data tags, by which loads hit or miss.

ghost use Rattle.std.specs.Prelude.{◌≡◌, ◌%◌, not, IsTrue, IfOk};
ghost use Rattle.data_tags.specs.Latency.{IsWithin, greatest_latency, is_lag_of};
ghost use Rattle.data_tags.specs.Table.{block_of, has_tag, lag_in, after_access_in};

use crate::{Delay, Kind, Lag, Latencies};
use join_law::Ctx;
use std::alloc::{AllocError, Allocator, Global};
use std::marker::Model;

const LINES: u64 = 64;

const LINE_BYTES: u64 = 64;

/// Whose 64 bytes were loaded to a line last.
#[derive(Clone, Copy, Debug, PartialEq, Eq)]
pub struct Tag {
    pub context: Ctx,
    /// The address divided by 64.
    pub block: u64,
}

/// One table of tags for all contexts, with 64 lines of 64 bytes. A load whose tag is there hits, every other load
/// misses and leaves its tag. It holds no bytes, stores don't touch it, and a squash repairs nothing.
///
/// It states the latency of the kind, that of a load being the hit latency or, with `miss` set, the miss latency.
#[derive(Drop)]
pub struct Tags<A: Allocator = Global> {
    latencies: Latencies,
    lines: Vec<Option<Tag>, A>,
}

impl<A: Allocator> Model for Tags<A> {
    ghost use Rattle.std.specs.Prelude.{◌≡◌, length};
    ghost use Rattle.data_tags.specs.Table.{Table};

    ghost Value = { Table };

    ghost view = { λ t. record { latencies = t.latencies; lines = t.lines.items } };

    ghost invariant = { λ t. length t.lines.items ≡ 64 };
}

impl<A: Allocator> Tags<A> {
    ghost use Rattle.data_tags.specs.Table.{is_miss, after_access, new_table};

    /// A table with no tags.
    ///
    /// # Errors
    ///
    /// Where the room for the lines is refused. No other call takes memory.
    pub fn new(alloc: A, latencies: Latencies) -> Result<Self, AllocError>
        ensures { IfOk result (λ tags. tags ≡ new_table latencies) }
    {
        let mut lines = Vec::new(alloc);
        lines.resize(LINES as usize, None)?;
        Ok(Tags { latencies, lines })
    }

    // Leaves the tag of a load, and tells whether it was missing.
    fn load(&mut self, context: Ctx, address: u64) -> bool
        ensures value { result ≡ is_miss self.old.lines context Kind.Load address }
        ensures state { self.new ≡ record self.old { lines = after_access self.old.lines context Kind.Load address } }
    {
        let block = block_of(address);
        let line = line_of(block);
        let misses = lacks(self.lines[line], context, block);
        self.lines[line] = Some(Tag { context, block });
        misses
    }
}

/// The number of an address's 64 bytes.
#[inline(always)]
fn block_of(address: u64) -> u64
    ensures { result ≡ block_of address }
{
    address / LINE_BYTES
}

/// The line that these bytes go to.
#[inline(always)]
fn line_of(block: u64) -> usize
    ensures { result ≡ block % 64 }
{
    (block % LINES) as usize
}

/// Whether a line lacks the tag of a context and a block.
#[inline(always)]
fn lacks(line: Option<Tag>, context: Ctx, block: u64) -> bool
    ensures { result ≡ not (has_tag line context block) }
{
    match line {
        Some(tag) => tag.context != context || tag.block != block,
        None => true,
    }
}

impl<A: Allocator> Delay for Tags<A> {
    ghost use Rattle.std.specs.Prelude.{refl};
    ghost use Rattle.data_tags.specs.Latency.{greatest_latency, is_lag_of};
    ghost use Rattle.data_tags.specs.LatencyLaws.{same_lag_within};
    ghost use Rattle.data_tags.specs.Table.{lag_in, after_access_in};

    ghost greatest_lag = { λ s. greatest_latency s.latencies };

    ghost may_answer = { λ s context kind address lag. is_lag_of s.latencies kind lag };

    ghost answer = { lag_in };

    ghost after_delay = { after_access_in };

    ghost delay_keeps = { λ s context kind address. refl };

    ghost greatest_keeps = { λ s context kind address. refl };

    ghost all_within = { λ s context kind address lag stated. same_lag_within s.latencies kind lag.miss lag stated };

    fn greatest(&self) -> u8 {
        self.latencies.greatest()
    }

    #[inline(always)]
    fn delay(&mut self, context: Ctx, kind: Kind, address: u64) -> Lag
        ensures answer { IsTrue (is_lag_of self.old.latencies kind result) }
        ensures within { IsWithin (greatest_latency self.old.latencies) result }
        ensures value { result ≡ lag_in self.old context kind address }
        ensures state { self.new ≡ after_access_in self.old context kind address }
    {
        let misses = kind == Kind::Load && self.load(context, address);
        self.latencies.lag(kind, misses)
    }
}
