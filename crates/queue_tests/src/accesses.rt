//! A flight with its queues of loads and stores, whose calls are told stamps.
ghost use Rattle.std.specs.Prelude.{◌≡◌, ◌<◌, length, All, IsTrue};
ghost use Rattle.flight.specs.Flights.{entry_in};

use crate::equal::assert_equal;
use core_view::{Access, Bytes, Decoded, Entry, Execution, Operation, Outcome, Span, Stage, Step};
use flight::Flight;
use hart_step::Stop;
use load_store_queue::{LoadAnswer, LoadStoreQueue, QueueFault};
use paged_memory::{Memory, Width};
use rv64_decode::decode;
use std::alloc::Global;
use std::marker::Model;
use std::process::Abort;

/// LD a0, 0(a1)
pub const LOAD: u32 = 0x0005_B503;

/// SD a0, 0(a1)
pub const STORE: u32 = 0x00A5_B023;

/// ADDI x0, x0, 0
pub const NOP: u32 = 0x0000_0013;

/// How many entries there may be.
const ROOM: usize = 8;

/// A context's entries, and the queues of its loads and stores.
#[derive(Drop)]
pub struct Accesses {
    flight: Flight,
    queue: LoadStoreQueue,
}

impl Model for Accesses {
    ghost use Rattle.std.specs.Prelude.{◌≡◌};
    ghost use Rattle.flight.specs.Flights.{Flight};

    ghost Value = { Flight };

    ghost view = { λ a. a.flight };

    ghost invariant = { λ a. a.flight.capacity ≡ 8 };
}

/// What stands at a word.
fn decoded(word: u32) -> Decoded {
    Decoded::new(match decode(word) {
        Some(insn) => Operation::Performs { insn },
        None => Operation::Stops { why: Stop::Illegal },
    })
}

/// An execution that is due in cycle 1.
fn execution(outcome: Outcome) -> Execution {
    Execution {
        due: 1,
        miss: false,
        outcome,
    }
}

/// An execution that makes an access and goes on at 4.
fn accessing(access: Access) -> Execution {
    execution(Outcome::Goes {
        step: Step {
            result: 0,
            next: 4,
            access,
        },
    })
}

/// A load's execution: it reads so many bytes at an address, or stops.
fn reading(span: Option<(u64, u8)>) -> Execution {
    match span {
        Some((address, size)) => accessing(Access::Reads {
            span: Span { address, size },
        }),
        None => execution(Outcome::Stops {
            why: Stop::LoadAccess,
        }),
    }
}

/// A store's execution: it writes to an address so many bytes of a value, or stops.
fn writing(bytes: Option<(u64, u8, u64)>) -> Execution {
    match bytes {
        Some((address, size, value)) => accessing(Access::Writes {
            bytes: Bytes {
                span: Span { address, size },
                value,
            },
        }),
        None => execution(Outcome::Stops {
            why: Stop::StoreAccess,
        }),
    }
}

impl Accesses {
    /// No entry, and so many places for loads and for stores.
    pub fn new(rt: &impl Abort, alloc: Global, load_places: usize, store_places: usize) -> Self {
        Accesses {
            flight: Flight::new(alloc, ROOM).expect(rt, "memory"),
            queue: LoadStoreQueue::new(load_places, store_places),
        }
    }

    /// What stands at a word is fetched, with a stamp above the others'.
    pub fn fetch(&mut self, rt: &impl Abort, stamp: u64, word: u32) {
        assert!(rt; self.flight.len() < ROOM && self.is_next(stamp));
        let operation = decoded(word);
        let entry = Entry::new(stamp, 0, 0, operation, 4);
        self.flight.push(entry, operation.is_guessed());
    }

    /// The oldest fetched entry is renamed: a load or a store takes its place.
    pub fn rename(&mut self, rt: &impl Abort) -> Result<(), QueueFault> {
        let place = self.flight.renamed_count();
        assert!(rt; place < 64);
        let operation = self.entry(rt, place).operation;
        if operation.is_load() {
            return self.queue.place_load(&mut self.flight);
        }
        if operation.is_store() {
            return self.queue.place_store(&mut self.flight);
        }
        self.flight.rename(1);
        Ok(())
    }

    /// What stands at a word is fetched and renamed.
    pub fn put(&mut self, rt: &impl Abort, stamp: u64, word: u32) {
        self.fetch(rt, stamp, word);
        assert_equal(rt, (stamp, self.rename(rt)), (stamp, Ok(())));
    }

    /// A load issues, and reads so many bytes at an address or stops.
    pub fn issue_load(&mut self, rt: &impl Abort, stamp: u64, span: Option<(u64, u8)>) {
        let place = self.place(rt, stamp);
        let load = self.entry(rt, place);
        assert!(rt; load.operation.is_load());
        assert!(rt; load.stage.is_queued());
        self.queue
            .issue_load(&mut self.flight, place, reading(span));
    }

    /// A store issues and completes, and writes to an address so many bytes of a value or stops. Gives the load that
    /// conflicts.
    pub fn complete_store(
        &mut self,
        rt: &impl Abort,
        stamp: u64,
        bytes: Option<(u64, u8, u64)>,
    ) -> Option<u64> {
        let place = self.place(rt, stamp);
        self.issue_store(rt, place, writing(bytes));
        self.resolve_store(rt, place)
    }

    /// The store at a place issues.
    fn issue_store(&mut self, rt: &impl Abort, place: usize, execution: Execution) {
        let store = self.entry(rt, place);
        assert!(rt; !store.operation.is_load());
        assert!(rt; store.stage.is_queued());
        self.flight.issue_other(place, execution);
    }

    /// The store at a place completes. Gives the load that conflicts.
    fn resolve_store(&mut self, rt: &impl Abort, place: usize) -> Option<u64> {
        let store = self.entry(rt, place);
        assert!(rt; store.operation.is_store());
        assert!(rt; matches!(store.stage.to_stage(), Stage::Issued { .. }));
        self.queue.resolve_store(&mut self.flight, place)
    }

    /// What the entry with a stamp gets that loads from an address, and the same where memory's number is lent.
    pub fn load(
        &self,
        rt: &impl Abort,
        memory: &Memory,
        stamp: u64,
        address: u64,
        width: Width,
    ) -> LoadAnswer {
        let place = self.place(rt, stamp);
        let answer = self
            .queue
            .ask_load(&self.flight, memory, place, address, width);
        let same = self.forwarded(memory, place, address, width);
        assert_equal(
            rt,
            (stamp, address, same.unwrap_or(answer)),
            (stamp, address, answer),
        );
        answer
    }

    /// What the entry at a place gets that is lent memory's number at an address, where there is one.
    fn forwarded(
        &self,
        memory: &Memory,
        place: usize,
        address: u64,
        width: Width,
    ) -> Option<LoadAnswer>
        requires { place < self.now.renamed }
    {
        let number = memory.load(address, width).ok()?;
        let size = width.bytes();
        let span = Span { address, size };
        Some(self.queue.forward(&self.flight, place, span, number))
    }

    /// The oldest entry, which has a stamp, retires.
    pub fn retire(&mut self, rt: &impl Abort, stamp: u64) {
        assert!(rt; self.flight.renamed_count() > 0);
        assert_equal(rt, self.entry(rt, 0).stamp, stamp);
        self.queue.retire(&mut self.flight);
    }

    /// The entries from a stamp on are dropped. The oldest stays.
    pub fn drop_from(&mut self, rt: &impl Abort, stamp: u64) {
        assert!(rt; self.entry(rt, 0).stamp < stamp);
        self.queue.drop_from(&mut self.flight, 0, stamp);
    }

    /// Whether there is a place for one more of what stands at a word.
    pub fn has_place(&self, word: u32) -> bool {
        self.queue.has_place(&self.flight, &decoded(word))
    }

    /// Whether no store has completed.
    pub fn has_no_completed_store(&self) -> bool {
        self.queue.has_no_completed_store(&self.flight)
    }

    /// Whether a stamp is above those of the entries.
    fn is_next(&self, stamp: u64) -> bool
        ensures { IsTrue result → All (λ e. e.stamp < stamp) self.now.entries }
    {
        // The stamps of the entries grow.
        let _len = self.flight.len();
        match self.flight.last() {
            None => true,
            Some(last) => last.stamp < stamp,
        }
    }

    /// The entry at a place.
    fn entry(&self, rt: &impl Abort, place: usize) -> Entry
        ensures within { place < length self.now.entries }
        ensures entry { result ≡ entry_in self.now.entries place }
    {
        *self.flight.get(place).expect(rt, "an entry at the place")
    }

    /// The place of the renamed entry with a stamp.
    fn place(&self, rt: &impl Abort, stamp: u64) -> usize
        ensures { result < self.now.renamed }
    {
        for place in 0..self.flight.renamed_count() {
            if self.entry(rt, place).stamp == stamp {
                return place;
            }
        }
        panic!(rt; "no entry {stamp}");
    }
}
