//! The calls of a lock.
ghost use Rattle.std.specs.Prelude.{◌≡◌, ◌≤◌, suc, [], ◌∷◌, ◌++◌, OnOk, IfOk, IfErr, List};
ghost use Rattle.checkpoint_book.specs.declared.call.Call.TheVariants.{Merge, Read};
ghost use Rattle.checkpoint_book.specs.declared.call.Call.{Call};
ghost use Rattle.checkpoint.specs.Further.{MarkKin};
ghost use Rattle.checkpoint_book.specs.declared.fault.BookFault.TheVariants.{OutOfMemory};
ghost use Rattle.checkpoint_book.specs.Foreign.{RefusesForeign};
ghost use Rattle.checkpoint_book.specs.Among.{In};
ghost use Rattle.checkpoint_book.specs.History.{own, greatest, by, AddsAtMostOne};
ghost use Rattle.checkpoint_book.specs.Views.{PassCalls};
ghost use Rattle.checkpoint_book.specs.LockSeats.{IsSeatOf, IsHolder, StandsForNew, StandsFor, StandsForAll, seat_passes, calls_of, found_history, opening_of, lock_passes};
ghost use Rattle.checkpoint_book.specs.Closing.{IsClosedLock};

use crate::known::Start;
use crate::rule::{Arrive, Give, Parting, Take, Together};
use crate::{BookFault, Call, Lock, Page, Seat};
use atomic_table::{Refused, Table};
use checkpoint::Shared;
use std::alloc::{AllocError, Global};
use std::snapshot::Snapshot;
use std::sync::Wait;
use std::thread;

impl Lock {
    // Takes the page.
    fn take<R: Wait>(&self, rt: &R, seat: &mut Seat, pass: u64) -> Page
        requires own { IsSeatOf self.now pass seat.old }
        ensures held { IsHolder self.now pass seat.new }
        ensures opening { result.opening.value ≡ opening_of self.now }
        ensures found { found_history seat.new ≡ result.history.items }
        ensures calls { (calls_of seat.new ≡ calls_of seat.old) × (calls_of seat.old ≡ own pass result.history.items) }
    {
        for _ in rt.forever() {
            if self
                .table
                .shared
                .compare_exchange::<Take>(&mut seat.place, 0, 0, 1)
                == 0
            {
                return self
                    .table
                    .shared
                    .exchange(&mut seat.place, 0, None)
                    .unwrap();
            }
            thread::yield_now();
        }
        unreachable!()
    }

    // Gives the page back, as it was found or with one call more.
    fn give(&self, seat: &mut Seat, pass: u64, page: Page)
        requires held { IsHolder self.now pass seat.old }
        requires opening { page.opening.value ≡ opening_of self.now }
        requires adds { AddsAtMostOne pass (found_history seat.old) page.history.items }
        ensures own { IsSeatOf self.now pass seat.new }
        ensures calls { calls_of seat.new ≡ own pass page.history.items }
    {
        drop(self.table.shared.exchange(&mut seat.place, 0, Some(page)));
        self.table.shared.store::<Give>(&mut seat.place, 0, 0);
    }

    /// Merges a mark. At `Err` nothing changed, and the mark comes back.
    pub fn merge<R: Wait>(
        &self,
        rt: &R,
        seat: &mut Seat,
        pass: u64,
        mark: Shared,
    ) -> Result<(), (Shared, BookFault)>
        requires own { IsSeatOf self.now pass seat.old }
        ensures own { IsSeatOf self.now pass seat.new }
        ensures foreign { RefusesForeign (opening_of self.now) mark result }
        ensures ok { OnOk result (calls_of seat.new ≡ calls_of seat.old ++ Merge pass mark.count ∷ []) }
        ensures err { IfErr result (λ e. (e.0 ≡ mark) × (calls_of seat.new ≡ calls_of seat.old)) }
    {
        let mut page = self.take(rt, seat, pass);
        let done = page.merge(pass, mark);
        self.give(seat, pass, page);
        done
    }

    /// The furthest mark, which is a recorded reading. At `Err` nothing changed.
    pub fn furthest<R: Wait>(&self, rt: &R, seat: &mut Seat, pass: u64) -> Result<Shared, BookFault>
        requires own { IsSeatOf self.now pass seat.old }
        ensures own { IsSeatOf self.now pass seat.new }
        ensures kin { IfOk result (λ m. MarkKin (opening_of self.now) m) }
        ensures above { IfOk result (λ m. ((opening_of self.now).count ≤ m.count) × (greatest (calls_of seat.old) ≤ m.count)) }
        ensures ok { IfOk result (λ m. calls_of seat.new ≡ calls_of seat.old ++ Read pass m.count ∷ []) }
        ensures err { IfErr result (λ e. (e ≡ OutOfMemory) × (calls_of seat.new ≡ calls_of seat.old)) }
    {
        let mut page = self.take(rt, seat, pass);
        let reading = page.read(pass);
        self.give(seat, pass, page);
        reading
    }

    /// A lock, and a seat that stands for all passes.
    pub fn new(alloc: Global, opening: Shared, passes: usize) -> Result<(Lock, Seat), AllocError>
        ensures { IfOk result (λ r. (opening_of r.0 ≡ opening) × (lock_passes r.0 ≡ passes) × StandsForNew r.0 passes r.1) }
    {
        let mut slots = Vec::with_capacity(alloc, 1)?;
        let start = Start {
            opening: Snapshot::of(&opening),
            passes,
        };
        slots.push_reserved(Some(Page::new(alloc, opening)));
        match Table::new(alloc, &[0], slots, &start) {
            Ok((table, place)) => Ok((Lock { table }, Seat { place })),
            Err(Refused { slots: _ }) => Err(AllocError),
        }
    }

    /// Splits the seat of the last pass off.
    pub fn split_off(&self, rest: &mut Seat, last: usize) -> Seat
        requires { StandsForNew self.now (suc last) rest.old }
        ensures rest { StandsForNew self.now last rest.new }
        ensures seat { IsSeatOf self.now last result × (calls_of result ≡ []) }
    {
        Seat {
            place: self.table.shared.split_seat::<Parting>(&mut rest.place),
        }
    }

    /// A seat that stands for no pass.
    pub fn empty_seat(&self) -> Seat
        ensures { StandsFor self.now [] result }
    {
        Seat {
            place: self.table.shared.load_new_seat::<Arrive>(0).1,
        }
    }

    /// The seat stands for one pass more.
    pub fn absorb(&self, all: &mut Seat, seat: Seat, pass: u64)
        requires seat { IsSeatOf self.now pass seat }
        requires all { StandsFor self.now (seat_passes all.old) all.old }
        ensures { StandsFor self.now (seat_passes all.old ++ (pass, calls_of seat) ∷ []) all.new }
    {
        self.table
            .shared
            .join_seat::<Together>(&mut all.place, seat.place);
    }

    /// The page, where the seat stands for all passes.
    pub fn close(self, all: Seat) -> Page
        requires { StandsForAll self all }
        ensures opening { result.opening.value ≡ opening_of self }
        ensures calls { (p : PassCalls) → In (seat_passes all) p → p.1 ≡ own p.0 result.history.items }
        ensures no_others { (c : Call) → In result.history.items c → (calls : List Call) × In (seat_passes all) (by c, calls) }
    {
        let Lock { table } = self;
        let mut closed = table.close_with(all.place);
        let page = closed.take(0).unwrap();
        closed.free();
        page
    }

    /// The mark and the history, where the seat stands for all passes.
    pub fn finish(self, all: Seat) -> (Shared, Vec<Call>)
        requires { StandsForAll self all }
        ensures { IsClosedLock (opening_of self) (seat_passes all) result.0 result.1.items }
    {
        self.close(all).into_parts()
    }
}
