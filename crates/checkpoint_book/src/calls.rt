//! Merges and readings.
ghost use Rattle.std.specs.Prelude.{◌≡◌, ◌≢◌, ◌↔◌, ◌⊎◌, ◌<◌, ◌≤◌, [], ◌∷◌, ◌++◌, OnOk, IfErr, IfOk, IsErrAnd};
ghost use Rattle.checkpoint_book.specs.declared.call.Call.TheVariants.{Merge, Read};
ghost use Rattle.checkpoint_book.specs.History.{greatest};
ghost use Rattle.checkpoint_book.specs.declared.fault.BookFault.TheVariants.{ForeignOrigin, OutOfMemory};
ghost use Rattle.checkpoint_book.specs.Foreign.{RefusesForeign};
ghost use Rattle.checkpoint.specs.Aligned.{IsMarkOf};
ghost use Rattle.checkpoint.specs.Further.{MarkKin};
ghost use Rattle.checkpoint_book.specs.Passes.{IsPassOf, calls_at, opening_at, origin_of, number_of, IsSameBut};

use crate::{Book, BookFault, Pass};
use checkpoint::Shared;
use join_law::Ctx;
use std::sync::Wait;

impl Book {
    /// Merges a mark into its own context. It waits while another pass has the lock of that context.
    ///
    /// # Errors
    /// K1: the mark is of another origin. K2: memory was refused. Nothing changed, and the mark is handed back.
    pub fn merge<R: Wait>(
        &self,
        rt: &R,
        pass: &mut Pass,
        mark: Shared,
    ) -> Result<(), (Shared, BookFault)>
        requires own { IsPassOf self.now pass.old }
        ensures own { IsPassOf self.now pass.new }
        ensures others { IsSameBut mark.context pass.old pass.new }
        ensures foreign { IsErrAnd result (λ e. e.1 ≡ ForeignOrigin) ↔ (mark.origin ≢ origin_of self.now) }
        ensures origin { IsErrAnd result (λ e. e.1 ≡ ForeignOrigin) ⊎ (mark.origin ≡ origin_of self.now) }
        ensures ok { OnOk result (calls_at mark.context pass.new ≡ calls_at mark.context pass.old ++ Merge (number_of pass.old) mark.count ∷ []) }
        ensures err { IfErr result (λ e. (e.0 ≡ mark) × (calls_at mark.context pass.new ≡ calls_at mark.context pass.old)) }
    {
        let context = mark.mark().context();
        self.merge_at(rt, pass, context, mark)
    }

    // Merges a mark into the lock of a context.
    fn merge_at<R: Wait>(
        &self,
        rt: &R,
        pass: &mut Pass,
        context: Ctx,
        mark: Shared,
    ) -> Result<(), (Shared, BookFault)>
        requires own { IsPassOf self.now pass.old }
        ensures own { IsPassOf self.now pass.new }
        ensures inside { context < 8 }
        ensures others { IsSameBut context pass.old pass.new }
        ensures foreign { RefusesForeign (opening_at context self.now) mark result }
        ensures ok { OnOk result (calls_at context pass.new ≡ calls_at context pass.old ++ Merge pass.old.number mark.count ∷ []) }
        ensures err { IfErr result (λ e. (e.0 ≡ mark) × (calls_at context pass.new ≡ calls_at context pass.old)) }
    {
        let number = pass.number;
        match context.index() {
            0 => self.locks.c0.merge(rt, &mut pass.seats.c0, number, mark),
            1 => self.locks.c1.merge(rt, &mut pass.seats.c1, number, mark),
            2 => self.locks.c2.merge(rt, &mut pass.seats.c2, number, mark),
            3 => self.locks.c3.merge(rt, &mut pass.seats.c3, number, mark),
            4 => self.locks.c4.merge(rt, &mut pass.seats.c4, number, mark),
            5 => self.locks.c5.merge(rt, &mut pass.seats.c5, number, mark),
            6 => self.locks.c6.merge(rt, &mut pass.seats.c6, number, mark),
            _ => self.locks.c7.merge(rt, &mut pass.seats.c7, number, mark),
        }
    }

    /// The furthest mark of a context, which is a recorded reading. It waits as `merge` does.
    ///
    /// # Errors
    /// K2: memory was refused. Nothing changed.
    pub fn furthest<R: Wait>(
        &self,
        rt: &R,
        pass: &mut Pass,
        context: Ctx,
    ) -> Result<Shared, BookFault>
        requires own { IsPassOf self.now pass.old }
        ensures own { IsPassOf self.now pass.new }
        ensures others { IsSameBut context pass.old pass.new }
        ensures mark { IfOk result (IsMarkOf (origin_of self.now) context) }
        ensures above { IfOk result (λ m. ((opening_at context self.now).count ≤ m.count) × (greatest (calls_at context pass.old) ≤ m.count)) }
        ensures ok { IfOk result (λ m. calls_at context pass.new ≡ calls_at context pass.old ++ Read (number_of pass.old) m.count ∷ []) }
        ensures err { IfErr result (λ e. (e ≡ OutOfMemory) × (calls_at context pass.new ≡ calls_at context pass.old)) }
    {
        self.read_at(rt, pass, context)
    }

    // Reads the furthest mark under the lock of a context.
    fn read_at<R: Wait>(&self, rt: &R, pass: &mut Pass, context: Ctx) -> Result<Shared, BookFault>
        requires own { IsPassOf self.now pass.old }
        ensures own { IsPassOf self.now pass.new }
        ensures inside { context < 8 }
        ensures others { IsSameBut context pass.old pass.new }
        ensures kin { IfOk result (λ m. MarkKin (opening_at context self.now) m) }
        ensures above { IfOk result (λ m. ((opening_at context self.now).count ≤ m.count) × (greatest (calls_at context pass.old) ≤ m.count)) }
        ensures ok { IfOk result (λ m. calls_at context pass.new ≡ calls_at context pass.old ++ Read pass.old.number m.count ∷ []) }
        ensures err { IfErr result (λ e. (e ≡ OutOfMemory) × (calls_at context pass.new ≡ calls_at context pass.old)) }
    {
        let number = pass.number;
        match context.index() {
            0 => self.locks.c0.furthest(rt, &mut pass.seats.c0, number),
            1 => self.locks.c1.furthest(rt, &mut pass.seats.c1, number),
            2 => self.locks.c2.furthest(rt, &mut pass.seats.c2, number),
            3 => self.locks.c3.furthest(rt, &mut pass.seats.c3, number),
            4 => self.locks.c4.furthest(rt, &mut pass.seats.c4, number),
            5 => self.locks.c5.furthest(rt, &mut pass.seats.c5, number),
            6 => self.locks.c6.furthest(rt, &mut pass.seats.c6, number),
            _ => self.locks.c7.furthest(rt, &mut pass.seats.c7, number),
        }
    }
}
