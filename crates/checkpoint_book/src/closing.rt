//! The end of a book.
ghost use Rattle.std.specs.Prelude.{◌≡◌, ◌↔◌, ◌++◌, ◌∷◌, [], List, All, IsOk, IfOk, IfErr, vec_len};
ghost use Rattle.checkpoint_book.specs.declared.book.Pass.{Pass};
ghost use Rattle.checkpoint_book.specs.Passes.{IsPassOf, passes_in};
ghost use Rattle.checkpoint_book.specs.Closing.{StandForPasses, StandForAll, AreClosedLocks, IsClosed};

use crate::{Book, Closed, Pass, Seat};
use join_law::Eight;

impl Book {
    /// The marks and the histories, where all passes are handed back.
    ///
    /// # Errors
    /// K3: a pass is missing. The book and the passes are handed back.
    pub fn close(self, passes: Vec<Pass>) -> Result<Closed, (Book, Vec<Pass>)>
        requires own { All (IsPassOf self) passes.items }
        ensures all { IsOk result ↔ (vec_len passes ≡ passes_in self) }
        ensures closed { IfOk result (IsClosed self passes.items) }
        ensures back { IfErr result (λ r. (r.0 ≡ self) × (r.1.items ≡ passes.items)) }
    {
        if passes.len() != self.passes {
            return Err((self, passes));
        }
        let all = self.gather(passes);
        Ok(self.finish(all))
    }

    // Seats that stand for these passes.
    fn gather(&self, passes: Vec<Pass>) -> Eight<Seat>
        requires { All (IsPassOf self.now) passes.items }
        ensures { StandForPasses self.now passes.items result }
    {
        let mut all = self.empty_seats();
        for pass in passes {
            self.absorb(&mut all, pass);
        }
        all
    }

    // Seats that stand for no pass.
    fn empty_seats(&self) -> Eight<Seat>
        ensures { StandForPasses self.now [] result }
    {
        let locks = &self.locks;
        Eight {
            c0: locks.c0.empty_seat(),
            c1: locks.c1.empty_seat(),
            c2: locks.c2.empty_seat(),
            c3: locks.c3.empty_seat(),
            c4: locks.c4.empty_seat(),
            c5: locks.c5.empty_seat(),
            c6: locks.c6.empty_seat(),
            c7: locks.c7.empty_seat(),
        }
    }

    // The seats stand for one pass more.
    fn absorb(&self, all: &mut Eight<Seat>, pass: Pass)
        requires pass { IsPassOf self.now pass }
        requires all { (ps : List Pass) × StandForPasses self.now ps all.old }
        ensures { (ps : List Pass) → StandForPasses self.now ps all.old → StandForPasses self.now (ps ++ pass ∷ []) all.new }
    {
        let Pass { number, seats } = pass;
        let Eight {
            c0,
            c1,
            c2,
            c3,
            c4,
            c5,
            c6,
            c7,
        } = seats;
        let locks = &self.locks;
        locks.c0.absorb(&mut all.c0, c0, number);
        locks.c1.absorb(&mut all.c1, c1, number);
        locks.c2.absorb(&mut all.c2, c2, number);
        locks.c3.absorb(&mut all.c3, c3, number);
        locks.c4.absorb(&mut all.c4, c4, number);
        locks.c5.absorb(&mut all.c5, c5, number);
        locks.c6.absorb(&mut all.c6, c6, number);
        locks.c7.absorb(&mut all.c7, c7, number);
    }

    // What the locks leave, where the seats stand for all passes.
    fn finish(self, all: Eight<Seat>) -> Closed
        requires { StandForAll self all }
        ensures { AreClosedLocks self all result }
    {
        let Book { locks, passes: _ } = self;
        let (n0, h0) = locks.c0.finish(all.c0);
        let (n1, h1) = locks.c1.finish(all.c1);
        let (n2, h2) = locks.c2.finish(all.c2);
        let (n3, h3) = locks.c3.finish(all.c3);
        let (n4, h4) = locks.c4.finish(all.c4);
        let (n5, h5) = locks.c5.finish(all.c5);
        let (n6, h6) = locks.c6.finish(all.c6);
        let (n7, h7) = locks.c7.finish(all.c7);
        Closed {
            marks: Eight {
                c0: n0,
                c1: n1,
                c2: n2,
                c3: n3,
                c4: n4,
                c5: n5,
                c6: n6,
                c7: n7,
            },
            histories: Eight {
                c0: h0,
                c1: h1,
                c2: h2,
                c3: h3,
                c4: h4,
                c5: h5,
                c6: h6,
                c7: h7,
            },
        }
    }
}
