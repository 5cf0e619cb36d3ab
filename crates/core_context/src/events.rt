//! The events of a cycle, each on one context and the data flow.

ghost use Rattle.std.specs.Prelude.{◌≡◌, ◌≢◌, ◌↔◌, ℕ, ◌+◌, ◌<◌, ◌≤◌, ◌^◌, ◌==◌, ◌&&◌, length, take, drop, IsSome, IsTrue, IfSome, Some, None, not, All, Bool, true, false, slice_get, option_map};
ghost use Rattle.std.specs.List.{list_any};
ghost use Rattle.std.specs.Option.{option_map_or};
ghost use Rattle.data_flow.specs.Flow.{lane, node_at, sources_at, taken, waits_in, cut_flow};
ghost use Rattle.core_view.specs.declared.entry.Entry.{Entry};
ghost use Rattle.core_view.specs.declared.entry.Stage.TheVariants.{Fetched, Queued};
ghost use Rattle.core_view.specs.declared.outcome.Outcome.TheVariants.{Stops};
ghost use Rattle.core_view.specs.Flight.{is_open_guess as is_open_guess_entry};
ghost use Rattle.core_view.specs.Operations.{destination_of, stops_at_fetch};
ghost use Rattle.core_view.specs.View.{entry_at};
ghost use Rattle.core_context.specs.Issuable.{HasIssued, HasToWait, IsAnswered, IsSupplied, IsSuppliedAt, IsIssuable, IsIssuableAt, IsMarked, must_wait, AreHeld};
ghost use Rattle.core_context.specs.Track.{is_last, retired, parked, stopped, completed, finished, renamed_one};
ghost use Rattle.core_context.specs.Cores.{operands_of};
ghost use Rattle.entry_stages.specs.Heads.{IsGoing, first_done, step_on};
ghost use Rattle.core_view.specs.Stages.{execution_of, IsIssued};
ghost use Rattle.flight.specs.Flights.{is_due};
ghost use Rattle.core_context.specs.Left.{IsIdleCore, IsEventAt};
ghost use Rattle.core_context.specs.Renamable.{HasPlaces, IsRenamable};
ghost use Rattle.core_context.specs.Steps.{retired_flow, settled_flow, completed_flow, cut_by, renamed_flow, IsRemarked, AreTold};
ghost use Rattle.lawful_cycle.specs.Queries.{IsLagBy, when_shown};

use crate::issuing::{perform, perform_apart};
use crate::track::Track;
use branch_predict::Guess;
use core_profile::Profile;
use core_view::{Decoded, Entry};
use data_flow::DataFlow;
use data_tags::{Delay, Lag};
use entry_stages::{is_past_front, operands};
use hart_step::Stop;
use join_law::Ctx;
use std::alloc::Allocator;

/// What retired: the stamp of the entry, whether the context is parked, and how many younger ones were dropped with it.
#[derive(Clone, Copy)]
pub struct Retired {
    /// Its stamp.
    pub stamp: u64,
    /// Whether the context came to its target, and is parked.
    pub parked: bool,
    /// How many entries were dropped: all that were left, where it is parked.
    pub dropped: usize,
}

/// The oldest entry, which is done with a step, retires. A branch or jump is shown to the guess. At the target the
/// context is parked.
#[inline(always)]
pub fn retire<A: Allocator, G: Guess>(
    flow: &mut DataFlow<A>,
    track: &mut Track<A>,
    guess: &mut G,
    context: Ctx,
) -> Retired
    requires core { IsIdleCore flow.old context track.old }
    requires done { IsGoing (first_done track.old.context.flight) }
    ensures track { track.new ≡ retired track.old (step_on (first_done track.old.context.flight)) }
    ensures event { IsEventAt context flow.old flow.new track.old track.new }
    ensures stamp { result.stamp ≡ (entry_at track.old.context 0).stamp }
    ensures parked { result.parked ≡ is_last track.old.context }
    ensures dropped { result.dropped + 1 + length track.new.context.flight ≡ length track.old.context.flight }
    ensures state { guess.new ≡ when_shown (entry_at track.old.context 0).operation (λ insn. G.after_learn guess.old context (entry_at track.old.context 0).pc insn (step_on (first_done track.old.context.flight)).next) guess.old }
{
    let stamp = track.step(guess, context);
    flow.commit(context);
    if track.is_at_target() {
        let dropped = park(flow, track, context);
        return Retired {
            stamp,
            parked: true,
            dropped,
        };
    }
    Retired {
        stamp,
        parked: false,
        dropped: 0,
    }
}

/// A context that has reached its target is parked, and its entries are dropped. Returns how many.
#[cold]
fn park<A: Allocator>(flow: &mut DataFlow<A>, track: &mut Track<A>, context: Ctx) -> usize
    ensures track { track.new ≡ parked track.old }
    ensures flow { flow.new ≡ cut_flow flow.old context 0 }
    ensures dropped { result ≡ length track.old.context.flight }
{
    flow.cut_from(context, 0, 0);
    track.park()
}

/// The oldest entry, which is done with a stop, stops the context.
#[cold]
pub fn stop<A: Allocator>(flow: &mut DataFlow<A>, track: &mut Track<A>, context: Ctx, why: Stop)
    requires core { IsIdleCore flow.old context track.old }
    requires done { first_done track.old.context.flight ≡ Some (Stops why) }
    ensures track { track.new ≡ stopped track.old why }
    ensures event { IsEventAt context flow.old flow.new track.old track.new }
{
    track.stop(why);
    flow.cut_from(context, 0, 0);
}

/// The entry at a place, which is issued, completes, if it is plain: fetch went on after it where it goes, and it is no
/// store behind which a load has issued. It squashes nothing. Returns whether one more may be due in the same cycle.
#[inline(always)]
pub fn complete_plain<A: Allocator>(
    flow: &mut DataFlow<A>,
    track: &mut Track<A>,
    context: Ctx,
    place: usize,
    cycle: u64,
) -> Option<bool>
    requires core { IsIdleCore flow.old context track.old }
    requires place { place < length track.old.context.flight }
    requires issued { IsIssued (entry_at track.old.context place).stage }
    ensures none { result ≡ None → (flow.new ≡ flow.old) × (track.new ≡ track.old) }
    ensures track { IfSome result (λ _. track.new ≡ completed track.old place (execution_of (entry_at track.old.context place).stage)) }
    ensures kept { IfSome result (λ _. length track.new.context.flight ≡ length track.old.context.flight) }
    ensures finished { IfSome result (λ _. track.new ≡ finished track.old place (execution_of (entry_at track.old.context place).stage)) }
    ensures more { IfSome result (λ more. more ≡ false → (i : ℕ) → is_due cycle (entry_at track.new.context i) ≡ false) }
    ensures event { IsEventAt context flow.old flow.new track.old track.new }
{
    let finished = track.finish_plain(place, cycle)?;
    // The oldest open guess is looked for where it is needed.
    let _guess = track.first_open_guess();
    flow.finish(context, place, finished.value);
    settle_freed(flow, track, context, place, finished.frees);
    Some(finished.more)
}

/// Calls `settle_speculation` where a flag says that something was freed.
#[inline(always)]
fn settle_freed<A: Allocator>(
    flow: &mut DataFlow<A>,
    track: &Track<A>,
    context: Ctx,
    place: usize,
    frees: bool,
)
    requires renamed { place ≤ track.now.renamed }
    requires told { (n : ℕ) → n ≤ place → AreTold flow.old context track.now.context.flight n }
    ensures freed { frees ≡ true → flow.new ≡ settled_flow flow.old context track.now }
    ensures same { frees ≡ false → flow.new ≡ flow.old }
{
    if frees {
        settle_speculation(flow, track, context, place);
    }
}

/// The entry at a place, which is issued, completes, and squashes what it doesn't keep. Returns how many entries are
/// squashed.
#[inline(never)]
pub fn complete<A: Allocator>(
    flow: &mut DataFlow<A>,
    track: &mut Track<A>,
    context: Ctx,
    place: usize,
) -> usize
    requires core { IsIdleCore flow.old context track.old }
    requires place { place < length track.old.context.flight }
    requires issued { IsIssued (entry_at track.old.context place).stage }
    ensures track { track.new ≡ completed track.old place (execution_of (entry_at track.old.context place).stage) }
    ensures event { IsEventAt context flow.old flow.new track.old track.new }
    ensures cut { result + length track.new.context.flight ≡ length track.old.context.flight }
{
    let before = track.len();
    complete_entry(flow, track, context, place);
    before - track.len()
}

/// The entry at a place completes, and the queue learns what is behind no guessed entry any more.
fn complete_entry<A: Allocator>(
    flow: &mut DataFlow<A>,
    track: &mut Track<A>,
    context: Ctx,
    place: usize,
)
    requires core { IsIdleCore flow.old context track.old }
    requires place { place < length track.old.context.flight }
    requires issued { IsIssued (entry_at track.old.context place).stage }
    ensures track { track.new ≡ completed track.old place (execution_of (entry_at track.old.context place).stage) }
    ensures flow { flow.new ≡ completed_flow flow.old context place (execution_of (entry_at track.old.context place).stage) track.old }
{
    let guessed = track.is_guessed(place);
    finish_entry(flow, track, context, place);
    if guessed {
        settle_speculation(flow, track, context, place);
    }
}

/// The entry at a place, which is issued, completes, and what it doesn't keep is forgotten.
fn finish_entry<A: Allocator>(
    flow: &mut DataFlow<A>,
    track: &mut Track<A>,
    context: Ctx,
    place: usize,
)
    requires core { IsIdleCore flow.old context track.old }
    requires place { place < length track.old.context.flight }
    requires issued { IsIssued (entry_at track.old.context place).stage }
    ensures track { track.new ≡ completed track.old place (execution_of (entry_at track.old.context place).stage) }
    ensures flow { flow.new ≡ cut_by flow.old context place (execution_of (entry_at track.old.context place).stage) track.old.context }
{
    let result = track.result_to_come(place);
    let cut = track.complete(place);
    if let Some(value) = result {
        flow.finish(context, place, value);
    }
    if let Some(stamp) = cut {
        flow.cut_from(context, stamp, track.renamed_count());
    }
}

/// The stamp of the oldest fetched entry, if there is one.
#[inline(always)]
pub fn front_stamp<A: Allocator>(track: &Track<A>) -> Option<u64>
    ensures { result ≡ option_map (λ (e : Entry). e.stamp) (slice_get track.now.context.flight track.now.renamed) }
{
    let entry = track.entry(track.renamed_count())?;
    Some(entry.stamp)
}

/// Whether the oldest fetched entry, if there is one, stops at fetch.
#[inline(always)]
pub fn front_stops<A: Allocator>(track: &Track<A>) -> bool
    ensures { result ≡ option_map_or (λ (e : Entry). stops_at_fetch e.operation) (slice_get track.now.context.flight track.now.renamed) false }
{
    match track.entry(track.renamed_count()) {
        Some(entry) => entry.operation.stops_at_fetch(),
        None => false,
    }
}

/// The stamp of the oldest fetched entry, if it is no greater than a limit and the entry can be renamed in a cycle: it was
/// fetched as many cycles ago as the front delay says, and each place that it needs is free.
fn renamable<A: Allocator>(
    flow: &DataFlow<A>,
    track: &Track<A>,
    cycle: u64,
    profile: &Profile,
    limit: u64,
) -> Option<u64>
    ensures can { IfSome result (IsRenamable flow.now track.now profile.now cycle) }
    ensures within { IfSome result (λ stamp. stamp ≤ limit) }
    ensures none { result ≡ None → (stamp : ℕ) → stamp ≤ limit → ¬ (IsRenamable flow.now track.now profile.now cycle stamp) }
{
    let place = track.renamed_count();
    let entry = track.entry(place)?;
    if entry.stamp > limit || place >= usize::from(profile.reorder_buffer) {
        return None;
    }
    if !is_past_front(entry, cycle, profile) {
        return None;
    }
    let operation = entry.operation;
    if flow.free_count() == 0 && needs_register(&operation) {
        return None;
    }
    if has_places(flow, track, &operation) {
        Some(entry.stamp)
    } else {
        None
    }
}

/// Whether each place that an operation needs of the queues is free.
#[inline(always)]
fn has_places<A: Allocator>(flow: &DataFlow<A>, track: &Track<A>, operation: &Decoded) -> bool
    ensures { IsTrue result ↔ HasPlaces flow.now track.now operation.now }
{
    track.has_place(operation) && (flow.has_place() || needs_no_place(operation))
}

/// Whether a register has to be free for an operation: it has a destination.
// It is asked where none is free alone, which is rare, and stays out of the way of what is common.
#[cold]
#[inline(never)]
fn needs_register(operation: &Decoded) -> bool
    ensures { result ≡ not (destination_of operation.now == 0) }
{
    operation.destination().index() != 0
}

/// Whether an operation needs no place of the issue queue: it stops at fetch.
// It is asked where none is free alone, as above.
#[cold]
#[inline(never)]
fn needs_no_place(operation: &Decoded) -> bool
    ensures { result ≡ stops_at_fetch operation.now }
{
    operation.stops_at_fetch()
}

/// The oldest fetched entry is renamed in a cycle, if it can be and its stamp is no greater than a limit. Returns its stamp.
pub fn rename<A: Allocator>(
    flow: &mut DataFlow<A>,
    track: &mut Track<A>,
    context: Ctx,
    cycle: u64,
    profile: &Profile,
    limit: u64,
) -> Option<u64>
    requires core { IsIdleCore flow.old context track.old }
    requires room { (lane flow.old context).room ≡ profile.now.reorder_buffer }
    ensures none { result ≡ None → (flow.new ≡ flow.old) × (track.new ≡ track.old) }
    ensures cannot { result ≡ None → (stamp : ℕ) → stamp ≤ limit → ¬ (IsRenamable flow.old track.old profile.now cycle stamp) }
    ensures can { IfSome result (IsRenamable flow.old track.old profile.now cycle) }
    ensures within { IfSome result (λ stamp. stamp ≤ limit) }
    ensures fetched { IfSome result (λ _. (entry_at track.old.context track.old.renamed).stage ≡ Fetched) }
    ensures track { IfSome result (λ _. track.new ≡ renamed_one cycle track.old) }
    ensures event { IsEventAt context flow.old flow.new track.old track.new }
{
    let stamp = renamable(flow, track, cycle, profile, limit)?;
    rename_oldest(flow, track, context, cycle);
    Some(stamp)
}

/// The oldest fetched entry is renamed; each place that it needs is free.
fn rename_oldest<A: Allocator>(
    flow: &mut DataFlow<A>,
    track: &mut Track<A>,
    context: Ctx,
    cycle: u64,
)
    requires some { track.old.renamed < length track.old.context.flight }
    requires few { track.old.renamed < 64 }
    requires younger { All (λ n. n.operands.stamp < (entry_at track.old.context track.old.renamed).stamp) (lane flow.old context).nodes }
    requires room { length (lane flow.old context).nodes < (lane flow.old context).room }
    requires free { 0 < destination_of (entry_at track.old.context track.old.renamed).operation → taken flow.old < flow.old.extra }
    requires fresh { waits_in flow.old context (entry_at track.old.context track.old.renamed).stamp ≡ false }
    requires place { stops_at_fetch (entry_at track.old.context track.old.renamed).operation ≡ false → length flow.old.waiters < flow.old.places }
    ensures track { track.new ≡ renamed_one cycle track.old }
    ensures flow { flow.new ≡ renamed_flow flow.old context (entry_at track.old.context track.old.renamed) (list_any is_open_guess_entry (take track.old.renamed track.old.context.flight)) }
{
    if next_stops(track) {
        rename_stop(flow, track, context, cycle);
    } else {
        rename_waiting(flow, track, context);
    }
}

/// Whether the oldest fetched entry stops at fetch.
#[inline(always)]
fn next_stops<A: Allocator>(track: &Track<A>) -> bool
    requires { track.now.renamed < length track.now.context.flight }
    ensures { result ≡ stops_at_fetch (entry_at track.now.context track.now.renamed).operation }
{
    let next = track.entry_at(track.renamed_count());
    next.operation.stops_at_fetch()
}

/// The oldest fetched entry, which stops at fetch, is renamed: it doesn't wait.
// It is rare, and stays out of the way of the others.
#[cold]
fn rename_stop<A: Allocator>(flow: &mut DataFlow<A>, track: &mut Track<A>, context: Ctx, cycle: u64)
    requires some { track.old.renamed < length track.old.context.flight }
    requires few { track.old.renamed < 64 }
    requires stops { stops_at_fetch (entry_at track.old.context track.old.renamed).operation ≡ true }
    requires younger { All (λ n. n.operands.stamp < (entry_at track.old.context track.old.renamed).stamp) (lane flow.old context).nodes }
    requires room { length (lane flow.old context).nodes < (lane flow.old context).room }
    requires free { 0 < destination_of (entry_at track.old.context track.old.renamed).operation → taken flow.old < flow.old.extra }
    ensures track { track.new ≡ renamed_one cycle track.old }
    ensures flow { (speculative : Bool) → flow.new ≡ renamed_flow flow.old context (entry_at track.old.context track.old.renamed) speculative }
{
    let entry = track.entry_at(track.renamed_count());
    track.rename(cycle);
    flow.rename(context, operands(&entry));
}

/// The oldest fetched entry, which doesn't stop at fetch, is renamed: it waits for issue.
#[inline(always)]
fn rename_waiting<A: Allocator>(flow: &mut DataFlow<A>, track: &mut Track<A>, context: Ctx)
    requires some { track.old.renamed < length track.old.context.flight }
    requires few { track.old.renamed < 64 }
    requires goes { stops_at_fetch (entry_at track.old.context track.old.renamed).operation ≡ false }
    requires younger { All (λ n. n.operands.stamp < (entry_at track.old.context track.old.renamed).stamp) (lane flow.old context).nodes }
    requires room { length (lane flow.old context).nodes < (lane flow.old context).room }
    requires free { 0 < destination_of (entry_at track.old.context track.old.renamed).operation → taken flow.old < flow.old.extra }
    requires fresh { waits_in flow.old context (entry_at track.old.context track.old.renamed).stamp ≡ false }
    requires place { length flow.old.waiters < flow.old.places }
    ensures track { (cycle : ℕ) → track.new ≡ renamed_one cycle track.old }
    ensures flow { flow.new ≡ renamed_flow flow.old context (entry_at track.old.context track.old.renamed) (list_any is_open_guess_entry (take track.old.renamed track.old.context.flight)) }
{
    let entry = track.entry_at(track.renamed_count());
    let speculative = track.has_uncompleted_guess();
    let guessed = entry.operation.is_guessed();
    let load = entry.operation.is_load();
    track.rename_waiting();
    flow.rename_waiting(context, operands(&entry), guessed, load, speculative);
}

/// Tells the queue of the entries that are behind no guessed entry any more: those up to the oldest guessed entry that
/// has not completed. It knows of those before a place that none was behind.
fn settle_speculation<A: Allocator>(
    flow: &mut DataFlow<A>,
    track: &Track<A>,
    context: Ctx,
    from: usize,
)
    requires renamed { from ≤ track.now.renamed }
    requires told { (n : ℕ) → n ≤ from → AreTold flow.old context track.now.context.flight n }
    ensures { flow.new ≡ settled_flow flow.old context track.now }
{
    // How many are renamed is at most how many there are.
    let _renamed = track.renamed_count();
    let guess = track.first_open_guess();
    let mut first = from.min(guess + 1);
    while let Some(place) = track.next_queued(first) {
        if place > guess {
            return;
        }
        let entry = track.entry_at(place);
        flow.speculate(context, entry.stamp, false);
        first = place + 1;
    }
}

/// The entry with a stamp issues in a cycle, after the lag that a delay gives. A load that has to wait for an older store
/// doesn't: `None`, and it is left as it is.
#[inline(always)]
pub fn issue<A: Allocator, D: Delay>(
    flow: &DataFlow<A>,
    track: &mut Track<A>,
    context: Ctx,
    stamp: u64,
    cycle: u64,
    delay: &mut D,
) -> Option<Lag>
    requires supplied { IsSupplied flow.now context track.old stamp }
    requires cycle { cycle < 2 ^ 56 }
    ensures issued { IfSome result (HasIssued (IsLagBy (D.may_answer delay.old) D.answer D.after_delay delay.old delay.new context) flow.now context stamp cycle track.old track.new) }
    ensures waits { result ≡ None → HasToWait flow.now context stamp track.old }
    ensures same { result ≡ None → track.new ≡ track.old }
    ensures unasked { result ≡ None → delay.new ≡ delay.old }
{
    let Some(place) = track.known_place(stamp) else {
        // Asked apart from what issues: an `Option` that a call out of line returns is built in memory.
        if waits_searched(flow, track, context, stamp) {
            return None;
        }
        return Some(issue_searched(flow, track, context, stamp, cycle, delay));
    };
    issue_at(flow, track, context, place, cycle, delay)
}

/// Whether the entry with a stamp has to wait for an older store, where its place isn't known.
#[cold]
#[inline(never)]
fn waits_searched<A: Allocator>(
    flow: &DataFlow<A>,
    track: &Track<A>,
    context: Ctx,
    stamp: u64,
) -> bool
    requires supplied { IsSupplied flow.now context track.now stamp }
    ensures waits { result ≡ true → HasToWait flow.now context stamp track.now }
    ensures issuable { result ≡ false → IsIssuable flow.now context track.now stamp }
{
    let place = track.queued_place(stamp).unwrap();
    let (first, _second) = flow.read_sources(context, place);
    track.load_waits_by_search(place, first)
}

/// The entry with a stamp, which may issue, does, where its place isn't known.
#[cold]
fn issue_searched<A: Allocator, D: Delay>(
    flow: &DataFlow<A>,
    track: &mut Track<A>,
    context: Ctx,
    stamp: u64,
    cycle: u64,
    delay: &mut D,
) -> Lag
    requires issuable { IsIssuable flow.now context track.old stamp }
    requires cycle { cycle < 2 ^ 56 }
    ensures { HasIssued (IsLagBy (D.may_answer delay.old) D.answer D.after_delay delay.old delay.new context) flow.now context stamp cycle track.old track.new result }
{
    let place = track.queued_place(stamp).unwrap();
    issue_apart(flow, track, context, place, cycle, delay)
}

/// The entry at a place issues in a cycle, after the lag that a delay gives, unless it is a load that has to wait.
#[inline(always)]
fn issue_at<A: Allocator, D: Delay>(
    flow: &DataFlow<A>,
    track: &mut Track<A>,
    context: Ctx,
    place: usize,
    cycle: u64,
    delay: &mut D,
) -> Option<Lag>
    requires place { place < length track.old.context.flight }
    requires supplied { IsSuppliedAt flow.now context track.old place }
    requires cycle { cycle < 2 ^ 56 }
    ensures issued { IfSome result (HasIssued (IsLagBy (D.may_answer delay.old) D.answer D.after_delay delay.old delay.new context) flow.now context (entry_at track.old.context place).stamp cycle track.old track.new) }
    ensures waits { result ≡ None → HasToWait flow.now context (entry_at track.old.context place).stamp track.old }
    ensures same { result ≡ None → track.new ≡ track.old }
    ensures unasked { result ≡ None → delay.new ≡ delay.old }
{
    let values = flow.read_sources(context, place);
    perform(track, place, values, context, cycle, delay)
}

/// The entry at a place, which may issue, does, out of line.
fn issue_apart<A: Allocator, D: Delay>(
    flow: &DataFlow<A>,
    track: &mut Track<A>,
    context: Ctx,
    place: usize,
    cycle: u64,
    delay: &mut D,
) -> Lag
    requires place { place < length track.old.context.flight }
    requires issuable { IsIssuableAt flow.now context track.old place }
    requires cycle { cycle < 2 ^ 56 }
    ensures { HasIssued (IsLagBy (D.may_answer delay.old) D.answer D.after_delay delay.old delay.new context) flow.now context (entry_at track.old.context place).stamp cycle track.old track.new result }
{
    let values = flow.read_sources(context, place);
    let entry = track.entry_at(place);
    let operation = *entry.operation.operation();
    perform_apart(
        track, place, operation, entry.pc, values, context, cycle, delay,
    )
}

/// Tells the queue which loads of a context, which are all let go, have to wait for an older store.
pub fn hold_loads<A: Allocator>(flow: &mut DataFlow<A>, track: &Track<A>, context: Ctx)
    requires nodes { length (lane flow.old context).nodes ≡ track.now.renamed }
    requires answered { (i : ℕ) → i < track.now.renamed → IsAnswered track.now.context i }
    requires let_go { (k : ℕ) → IsMarked flow.old context k false }
    ensures flow { IsRemarked flow.old flow.new }
    ensures held { AreHeld flow.new context track.now }
    ensures others { (d k : ℕ) (b : Bool) → d ≢ context → IsMarked flow.old d k b → IsMarked flow.new d k b }
{
    if track.has_no_completed_store() {
        return;
    }
    let mut from = 0;
    for _turn in 0..track.renamed_count() {
        let Some(place) = track.next_queued_load(from) else {
            return;
        };
        hold_load(flow, track, context, place);
        from = place + 1;
    }
}

/// Holds the entry of a context at a place, which is queued and let go, if it has the values of its sources and has to
/// wait for an older store.
fn hold_load<A: Allocator>(flow: &mut DataFlow<A>, track: &Track<A>, context: Ctx, place: usize)
    requires place { place < track.now.renamed }
    requires nodes { length (lane flow.old context).nodes ≡ track.now.renamed }
    requires queued { (entry_at track.now.context place).stage ≡ Queued }
    requires answered { IsAnswered track.now.context place }
    requires let_go { IsMarked flow.old context (entry_at track.now.context place).stamp false }
    ensures flow { IsRemarked flow.old flow.new }
    ensures held { IsMarked flow.new context (entry_at track.now.context place).stamp (must_wait track.now.context place (sources_at (lane flow.old context) place)) }
    ensures others { (d k : ℕ) (b : Bool) → (k ≡ (entry_at track.now.context place).stamp → d ≢ context) → IsMarked flow.old d k b → IsMarked flow.new d k b }
{
    // How many are renamed is at most how many there are.
    let _renamed = track.renamed_count();
    let Some((first, _second)) = flow.sources(context, place) else {
        return;
    };
    if !track.load_waits_by_search(place, first) {
        return;
    }
    let entry = track.entry_at(place);
    flow.hold(context, entry.stamp, true);
}
