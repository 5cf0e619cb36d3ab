//! A board, its seats and its calls.
ghost use Rattle.std.specs.Prelude.{◌≡◌};

use crate::BoardFault;
use crate::known::{Known, Start};
use crate::rule::{Arrive, Greatest, Look, Parting, Raise, Together};
use atomic_table::Table;
use join_law::Ctx;
use std::alloc::{AllocError, Global};

/// Eight counts, one for each context. Each is a word that changes in one step, so no call waits.
#[derive(Drop)]
pub struct Board {
    table: Table<(), Known, Start, Greatest, Global>,
    seats: usize,
    ghost sized: { (table.shared.table_id.words ≡ 8) × (table.shared.table_id.slots ≡ 0) },
    ghost counted: { table.shared.key.seats ≡ seats },
}

/// The right of one thread to raise and see a board's counts. It has no bytes.
#[derive(Drop)]
pub struct Seat {
    place: atomic_table::Seat<(), Known>,
}

impl Board {
    ghost use Rattle.std.specs.Prelude.{◌≡◌, ◌↔◌, ◌<◌, ◌≤◌, ◌==◌, if◌then◌else◌, ℕ, IfOk, IfErr, IsOk, All, max, map, vec_len, slice_index, []};
    ghost use Rattle.count_board.specs.Counts.{greatest};
    ghost use Rattle.count_board.specs.Views.{fresh};
    ghost use Rattle.count_board.specs.Seats.{IsSeatOf, IsNew, opening_of, seats_of, raised_at, seen_at, known, gathered};

    /// A board with these counts, and its seats.
    ///
    /// # Errors
    /// G1: memory was refused.
    pub fn new(
        alloc: Global,
        opening: [u64; 8],
        seats: usize,
    ) -> Result<(Board, Vec<Seat>), BoardFault>
        requires some { 0 < seats }
        ensures opening { IfOk result (λ r. opening_of r.0 ≡ opening) }
        ensures count { IfOk result (λ r. (seats_of r.0 ≡ seats) × (vec_len r.1 ≡ seats)) }
        ensures seats { IfOk result (λ r. All (λ s. IsSeatOf r.0 s × IsNew s) r.1.items) }
    {
        let start = Start { opening, seats };
        let (table, place) = Table::of_words(alloc, &opening, &start)?;
        let board = Board { table, seats };
        let dealt = board.deal(alloc, Seat { place })?;
        Ok((board, dealt))
    }

    /// Raises the count of a context to this one, if it is less, and returns the count before. It doesn't wait.
    pub fn raise(&self, seat: &mut Seat, context: Ctx, count: u64) -> u64
        requires own { IsSeatOf self.now seat.old }
        ensures own { IsSeatOf self.now seat.new }
        ensures before { (raised_at context seat.old ≤ result) × (seen_at context seat.old ≤ result) }
        ensures raised { (i : ℕ) → raised_at i seat.new ≡ (if i == context then max (raised_at i seat.old) count else raised_at i seat.old) }
        ensures seen { (i : ℕ) → seen_at i seat.new ≡ (if i == context then max result count else seen_at i seat.old) }
    {
        self.table
            .shared
            .fetch_max::<Raise>(&mut seat.place, context.index(), count)
    }

    /// The count of a context. It doesn't wait.
    pub fn seen(&self, seat: &mut Seat, context: Ctx) -> u64
        requires own { IsSeatOf self.now seat.old }
        ensures own { IsSeatOf self.now seat.new }
        ensures before { (raised_at context seat.old ≤ result) × (seen_at context seat.old ≤ result) }
        ensures raised { (i : ℕ) → raised_at i seat.new ≡ raised_at i seat.old }
        ensures seen { (i : ℕ) → seen_at i seat.new ≡ (if i == context then result else seen_at i seat.old) }
    {
        self.table
            .shared
            .load::<Look>(&mut seat.place, context.index())
    }

    /// The counts, where all seats are handed back.
    ///
    /// # Errors
    /// G2: a seat is missing. The board and the seats are handed back.
    pub fn close(self, seats: Vec<Seat>) -> Result<[u64; 8], (Board, Vec<Seat>)>
        requires own { All (IsSeatOf self) seats.items }
        ensures all { IsOk result ↔ (vec_len seats ≡ seats_of self) }
        ensures counts { IfOk result (λ counts. (i : ℕ) → i < 8 → slice_index counts i ≡ greatest (slice_index (opening_of self) i) (map (raised_at i) seats.items)) }
        ensures seen { IfOk result (λ counts. (i : ℕ) → i < 8 → All (λ s. seen_at i s ≤ slice_index counts i) seats.items) }
        ensures back { IfErr result (λ r. (r.0 ≡ self) × (r.1.items ≡ seats.items)) }
    {
        if seats.len() != self.seats {
            return Err((self, seats));
        }
        let all = self.gather(seats);
        let Board { table, seats: _ } = self;
        let closed = table.close_with(all.place);
        let counts = [
            closed.word(0),
            closed.word(1),
            closed.word(2),
            closed.word(3),
            closed.word(4),
            closed.word(5),
            closed.word(6),
            closed.word(7),
        ];
        closed.free();
        Ok(counts)
    }

    // The first seat stands for all. Each but the last is cut off it.
    fn deal(&self, alloc: Global, first: Seat) -> Result<Vec<Seat>, AllocError>
        requires own { (first.place.table_id ≡ self.now.table.shared.table_id) × (first.place.me ≡ (fresh (seats_of self.now), [])) × (0 < seats_of self.now) }
        ensures count { IfOk result (λ v. vec_len v ≡ seats_of self.now) }
        ensures seats { IfOk result (λ v. All (λ s. IsSeatOf self.now s × IsNew s) v.items) }
    {
        let mut dealt = Vec::with_capacity(alloc, self.seats)?;
        let mut first = first;
        for _ in 1..self.seats {
            let place = self.table.shared.split_seat::<Parting>(&mut first.place);
            dealt.push_reserved(Seat { place });
        }
        dealt.push_reserved(first);
        Ok(dealt)
    }

    // One seat that knows all that these know.
    fn gather(&self, seats: Vec<Seat>) -> Seat
        requires own { All (IsSeatOf self.now) seats.items }
        ensures own { result.place.table_id ≡ self.now.table.shared.table_id }
        ensures knows { result.place.me ≡ (gathered seats.items, []) }
    {
        let mut all = Seat {
            place: self.table.shared.load_new_seat::<Arrive>(0).1,
        };
        for seat in seats {
            let Seat { place } = seat;
            self.table
                .shared
                .join_seat::<Together>(&mut all.place, place);
        }
        all
    }
}
