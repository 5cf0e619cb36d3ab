//! The part of a cycle in which entries issue.

ghost use Rattle.std.specs.Prelude.{◌≡◌, ◌+◌, ◌<◌, ◌≤◌, ◌^◌, [], length};
ghost use Rattle.lawful_cycle.specs.Issue.{IsIssue};
ghost use Rattle.core_back.specs.Issued.{IsIssuedAnew};
ghost use Rattle.lawful_cycle.specs.Queries.{IsLagBy};
ghost use Rattle.lawful_cycle.specs.Steps.{GoesBy, IsTimedAt};
ghost use Rattle.core_back.specs.Machine.{IsAlike, in_flight};

use crate::machine::Machine;
use core_view::Issue;
use data_tags::Delay;
use issue_queue::Order;
use listing::Listing;
use std::alloc::Allocator;

/// The first ready entries by an order issue, at most as many as the issue width, each after the lag that a delay gives.
/// What issues is listed in order.
pub fn issue<A: Allocator, O: Order, D: Delay, L: Listing<Issue, 8>>(
    machine: &mut Machine<A>,
    order: &O,
    delay: &mut D,
    issued: &mut L,
)
    requires idle { machine.old.names ≡ [] }
    requires cycle { machine.old.view.cycle < 2 ^ 56 }
    requires fresh { L.items issued.old ≡ [] }
    ensures alike { IsAlike machine.old machine.new }
    ensures idle { machine.new.names ≡ [] }
    ensures flights { in_flight machine.new ≡ in_flight machine.old }
    ensures timed { GoesBy (IsTimedAt D.answer D.after_delay machine.old.view) (L.items issued.new) delay.old delay.new }
    ensures lawful { IsIssue (O.key_of order.now) (D.may_answer delay.old) machine.old.view machine.new.view (L.items issued.new) }
{
    let width = issue_width(machine);
    // `cycle` ensures that each context is live, so its stamps grow.
    let _live = machine.cycle();
    machine.select(order, width);
    while machine.selected_count() != 0 {
        let Some(issue) = machine.issue_next(delay) else {
            let left = width - issued.len();
            issue_anew(machine, order, delay, left, issued);
            return;
        };
        issued.push(issue);
    }
}

/// The first ready entries issue, at most so many, where a load that was selected has to wait.
// It is rare, and asks each load ahead of the selection.
#[cold]
#[inline(never)]
fn issue_anew<A: Allocator, O: Order, D: Delay, L: Listing<Issue, 8>>(
    machine: &mut Machine<A>,
    order: &O,
    delay: &mut D,
    width: usize,
    issued: &mut L,
)
    requires some { 0 < length machine.old.names }
    requires cycle { machine.old.view.cycle < 2 ^ 56 }
    requires room { length (L.items issued.old) + width ≤ 8 }
    ensures alike { IsAlike machine.old machine.new }
    ensures flights { in_flight machine.new ≡ in_flight machine.old }
    ensures anew { IsIssuedAnew (O.key_of order.now) (IsLagBy (D.may_answer delay.old) D.answer D.after_delay) delay.old delay.new width machine.old machine.new (L.items issued.old) (L.items issued.new) }
{
    // `cycle` ensures that each context is live, so its stamps grow.
    let _live = machine.cycle();
    machine.select_anew(order, width);
    while machine.selected_count() != 0 {
        let Some(next) = machine.issue_next(delay) else {
            unreachable!();
        };
        issued.push(next);
    }
}

/// How many entries may issue in a cycle.
#[inline(always)]
fn issue_width<A: Allocator>(machine: &Machine<A>) -> usize
    ensures value { result ≡ machine.now.view.profile.issue_width }
    ensures bound { result ≤ 8 }
{
    usize::from(machine.profile().issue_width)
}
