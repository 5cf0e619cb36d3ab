//! Books and their passes, as they are made.
ghost use Rattle.std.specs.Prelude.{◌≡◌, ◌<◌, ℕ, suc, IfOk, IfErr, All, vec_len};
ghost use Rattle.join_law.specs.Eight.{place_of};
ghost use Rattle.checkpoint_book.specs.Passes.{StandForNew, AreNewPasses, IsNewPass, IsPassOf, opening_at, passes_in};
ghost use Rattle.checkpoint.specs.Aligned.{IsAligned};
ghost use Rattle.checkpoint_book.specs.declared.fault.BookFault.TheVariants.{OutOfMemory};

use crate::{Book, BookFault, Lock, Pass, Seat};
use checkpoint::Shared;
use join_law::Eight;
use std::alloc::{AllocError, Global};

impl Book {
    /// A book that begins with these marks, and its passes.
    ///
    /// # Errors
    /// K2: memory was refused.
    pub fn new(
        alloc: Global,
        opening: Eight<Shared>,
        passes: usize,
    ) -> Result<(Book, Vec<Pass>), BookFault>
        requires aligned { IsAligned opening }
        requires some { 0 < passes }
        ensures opening { IfOk result (λ r. (i : ℕ) → i < 8 → opening_at i r.0 ≡ place_of opening i) }
        ensures count { IfOk result (λ r. (passes_in r.0 ≡ passes) × (vec_len r.1 ≡ passes)) }
        ensures own { IfOk result (λ r. All (IsPassOf r.0) r.1.items) }
        ensures passes { IfOk result (λ r. AreNewPasses r.0 passes 0 r.1.items) }
        ensures err { IfErr result (λ e. e ≡ OutOfMemory) }
    {
        let (book, all) = book_and_seats(alloc, opening, passes)?;
        let dealt = book.deal(alloc, all)?;
        Ok((book, dealt))
    }

    // Gives each pass its own seats, the last one first.
    fn deal(&self, alloc: Global, all: Eight<Seat>) -> Result<Vec<Pass>, AllocError>
        requires { StandForNew self.now self.now.passes all }
        ensures count { IfOk result (λ v. vec_len v ≡ self.now.passes) }
        ensures own { IfOk result (λ v. All (IsPassOf self.now) v.items) }
        ensures passes { IfOk result (λ v. AreNewPasses self.now self.now.passes 0 v.items) }
    {
        let mut dealt = Vec::with_capacity(alloc, self.passes)?;
        let mut rest = all;
        let mut last = self.passes;
        while last > 0 {
            last -= 1;
            let pass = self.split_off(&mut rest, last);
            dealt.push_reserved(pass);
        }
        Ok(dealt)
    }

    // Splits the last pass off.
    fn split_off(&self, rest: &mut Eight<Seat>, last: usize) -> Pass
        requires { StandForNew self.now (suc last) rest.old }
        ensures rest { StandForNew self.now last rest.new }
        ensures pass { IsNewPass self.now last result }
    {
        let locks = &self.locks;
        let seats = Eight {
            c0: locks.c0.split_off(&mut rest.c0, last),
            c1: locks.c1.split_off(&mut rest.c1, last),
            c2: locks.c2.split_off(&mut rest.c2, last),
            c3: locks.c3.split_off(&mut rest.c3, last),
            c4: locks.c4.split_off(&mut rest.c4, last),
            c5: locks.c5.split_off(&mut rest.c5, last),
            c6: locks.c6.split_off(&mut rest.c6, last),
            c7: locks.c7.split_off(&mut rest.c7, last),
        };
        Pass {
            number: last as u64,
            seats,
        }
    }
}

// A book of locks, and a seat of each that stands for all passes.
fn book_and_seats(
    alloc: Global,
    opening: Eight<Shared>,
    passes: usize,
) -> Result<(Book, Eight<Seat>), AllocError>
    requires aligned { IsAligned opening }
    ensures opening { IfOk result (λ r. (i : ℕ) → i < 8 → opening_at i r.0 ≡ place_of opening i) }
    ensures seats { IfOk result (λ r. (r.0.passes ≡ passes) × StandForNew r.0 passes r.1) }
{
    let Eight {
        c0: m0,
        c1: m1,
        c2: m2,
        c3: m3,
        c4: m4,
        c5: m5,
        c6: m6,
        c7: m7,
    } = opening;
    let (l0, s0) = Lock::new(alloc, m0, passes)?;
    let (l1, s1) = Lock::new(alloc, m1, passes)?;
    let (l2, s2) = Lock::new(alloc, m2, passes)?;
    let (l3, s3) = Lock::new(alloc, m3, passes)?;
    let (l4, s4) = Lock::new(alloc, m4, passes)?;
    let (l5, s5) = Lock::new(alloc, m5, passes)?;
    let (l6, s6) = Lock::new(alloc, m6, passes)?;
    let (l7, s7) = Lock::new(alloc, m7, passes)?;
    let locks = Eight {
        c0: l0,
        c1: l1,
        c2: l2,
        c3: l3,
        c4: l4,
        c5: l5,
        c6: l6,
        c7: l7,
    };
    let all = Eight {
        c0: s0,
        c1: s1,
        c2: s2,
        c3: s3,
        c4: s4,
        c5: s5,
        c6: s6,
        c7: s7,
    };
    Ok((Book { locks, passes }, all))
}
