//! Entries of the queue, and what is shown of them.

ghost use Rattle.std.specs.Prelude.{◌≡◌, ◌≢◌, ◌==◌, ◌&&◌, false, None, is_some, IfSome};
ghost use Rattle.std.specs.Option.{option_to_list};
ghost use Rattle.issue_queue.specs.Entry.{is_named};
ghost use Rattle.issue_queue.specs.IssueQueue.{is_from};
ghost use Rattle.issue_queue.specs.Views.{AreAlike, as_entry, awaited_of, entered, entry_of, name_of, queued_of, reads_of, view_of};

use core_view::EntryId;
use join_law::Ctx;
use rename_file::PhysicalRegister;

/// An entry that enters the queue.
#[derive(Clone, Copy, Debug, PartialEq, Eq)]
pub struct Waiting {
    /// Its context.
    pub context: Ctx,
    /// Its stamp, which no other entry of its context has.
    pub stamp: u64,
    /// Whether it is a conditional branch or a JALR.
    pub guessed: bool,
    /// Whether it is a load.
    pub load: bool,
    /// Whether an older guessed entry of its context has not completed.
    pub speculative: bool,
    /// The physical registers of its sources that are not ready.
    pub sources: [Option<PhysicalRegister>; 2],
}

/// A physical register that an entry reads.
#[derive(Clone, Copy)]
pub struct Source {
    /// The register.
    pub register: PhysicalRegister,
    /// Whether it has no value yet.
    pub awaited: bool,
}

/// An entry that enters the queue, with each register that it reads.
#[derive(Clone, Copy)]
pub struct Reading {
    /// Its context.
    pub context: Ctx,
    /// Its stamp, which no other entry of its context has.
    pub stamp: u64,
    /// Whether it is a conditional branch or a JALR.
    pub guessed: bool,
    /// Whether it is a load.
    pub load: bool,
    /// Whether an older guessed entry of its context has not completed.
    pub speculative: bool,
    /// Its first source.
    pub first: Source,
    /// Its second source.
    pub second: Source,
}

impl Waiting {
    /// The entry with two registers. Where it has no source it reads one that it doesn't wait for.
    pub(crate) fn reading(&self) -> Reading
        ensures entry { entered result ≡ entry_of self.now }
        ensures alike { AreAlike result }
    {
        let [first, second] = self.sources;
        Reading {
            context: self.context,
            stamp: self.stamp,
            guessed: self.guessed,
            load: self.load,
            speculative: self.speculative,
            first: source_beside(&first, &second),
            second: source_beside(&second, &first),
        }
    }
}

/// A source that is waited for, or else any register but the other source's.
fn source_beside(source: &Option<PhysicalRegister>, other: &Option<PhysicalRegister>) -> Source
    ensures awaited { awaited_of result ≡ option_to_list source.now }
    ensures waits { result.awaited ≡ is_some source.now }
    ensures beside { source.now ≡ None → IfSome other.now (λ r. result.register ≢ r) }
    ensures register { IfSome source.now (λ r. result.register ≡ r) }
{
    match *source {
        Some(register) => Source {
            register,
            awaited: true,
        },
        None => Source {
            register: another(*other),
            awaited: false,
        },
    }
}

/// Any register but one.
fn another(register: Option<PhysicalRegister>) -> PhysicalRegister
    ensures { IfSome register (λ r. result ≢ r) }
{
    let number = match register {
        Some(register) => usize::from(register.index() == 0),
        None => 0,
    };
    PhysicalRegister::new(number).unwrap()
}

/// What an order sees of an entry.
#[derive(Clone, Copy, Debug, PartialEq, Eq)]
pub struct QueueView {
    /// Its stamp.
    pub stamp: u64,
    /// Its context.
    pub context: Ctx,
    /// Whether it is a conditional branch or a JALR.
    pub guessed: bool,
    /// Whether an older guessed entry of its context has not completed.
    pub speculative: bool,
}

/// An entry in the queue, but for whether it is held, and which of the registers that it reads it waits for.
#[derive(Clone, Copy)]
pub(crate) struct Queued {
    pub stamp: u64,
    pub context: Ctx,
    pub first: PhysicalRegister,
    pub second: PhysicalRegister,
    pub guessed: bool,
    pub load: bool,
    pub speculative: bool,
}

impl Queued {
    /// The entry that enters.
    #[inline(always)]
    pub(crate) fn new(reading: &Reading) -> Queued
        ensures { result ≡ queued_of reading.now }
    {
        Queued {
            stamp: reading.stamp,
            first: reading.first.register,
            second: reading.second.register,
            context: reading.context,
            guessed: reading.guessed,
            load: reading.load,
            speculative: reading.speculative,
        }
    }

    /// Its context.
    pub(crate) fn context(&self) -> Ctx
        ensures { result ≡ self.now.context }
    {
        self.context
    }

    /// The registers that it reads.
    pub(crate) fn sources(&self) -> [PhysicalRegister; 2]
        ensures { result ≡ reads_of self.now }
    {
        [self.first, self.second]
    }

    /// Its stamp.
    pub(crate) fn stamp(&self) -> u64
        ensures { result ≡ self.now.stamp }
    {
        self.stamp
    }

    /// What an order sees of it.
    pub(crate) fn view(&self) -> QueueView
        ensures { result ≡ view_of (as_entry false self.now) }
    {
        QueueView {
            stamp: self.stamp,
            context: self.context,
            guessed: self.guessed,
            speculative: self.speculative,
        }
    }

    /// Its name.
    pub(crate) fn name(&self) -> EntryId
        ensures { result ≡ name_of (as_entry false self.now) }
    {
        EntryId {
            context: self.context,
            stamp: self.stamp,
        }
    }

    /// Whether it is the entry of a context and stamp.
    pub(crate) fn is_named(&self, context: Ctx, stamp: u64) -> bool
        ensures { result ≡ is_named context stamp (as_entry false self.now) }
    {
        self.context == context && self.stamp == stamp
    }

    /// Whether it is of a context and has at least this stamp.
    pub(crate) fn is_from(&self, context: Ctx, stamp: u64) -> bool
        ensures { result ≡ is_from context stamp (as_entry false self.now) }
    {
        self.context == context && self.stamp >= stamp
    }
}
