//! Fetch policies and the contexts that they pick, on worked views.

ghost use Rattle.std.specs.Prelude.{◌≤◌};
ghost use Rattle.fetch_policy.specs.Least.{AreRanks};

use crate::equal::assert_equal;
use core_profile::FetchPolicy;
use fetch_policy::{
    Brcount, FetchContext, FetchView, Icount, Iqposn, Misscount, NO_COUNT, NO_KEY, NamedPick, Pick,
    RoundRobin, choose, first_by_rank, ranks, sums, without, without_full,
};
use join_law::{Ctx, Eight};
use std::simd::prelude::*;

/// An eligible context with nothing in flight.
const IDLE: FetchContext = FetchContext {
    eligible: true,
    entries: 0,
    guessed: 0,
    missed_loads: 0,
    oldest_place: None,
};

/// Eligible contexts with so many entries each.
fn with_entries(cycle: u64, entries: [u64; 8]) -> FetchView {
    let contexts = entries.map(|entries| FetchContext { entries, ..IDLE });
    FetchView {
        cycle,
        contexts: Eight::from_array(contexts),
    }
}

/// The view of cycle 6 with contexts 2, 2, 5, 0, 5 in the issue queue, of which these are eligible.
fn with_queue(eligible: [bool; 8]) -> FetchView {
    let places = [Some(3), None, Some(0), None, None, Some(2), None, None];
    let mut contexts = [IDLE; 8];
    for (i, place) in places.into_iter().enumerate() {
        contexts[i].oldest_place = place;
        contexts[i].eligible = eligible[i];
    }
    FetchView {
        cycle: 6,
        contexts: Eight::from_array(contexts),
    }
}

/// The numbers of the picks, 9 where there is none.
fn picked<P: Pick>(pick: &P, view: &FetchView, num1: u8) -> [usize; 4]
    requires { num1 ≤ 4 }
{
    let picks = choose(pick, view, num1);
    [0, 1, 2, 3].map(|i| picks.as_slice().get(i).map_or(9, |context| context.index()))
}

#[test]
fn icount_takes_the_fewest_entries(rt: HostRuntime) {
    let view = with_entries(3, [4, 0, 2, 0, 9, 9, 9, 9]);
    let named = NamedPick::from(FetchPolicy::Icount);
    assert_equal(
        &rt,
        [picked(&Icount, &view, 2), picked(&named, &view, 4)],
        [[3, 1, 9, 9], [3, 1, 2, 0]],
    );
}

#[test]
fn iqposn_takes_the_farthest_from_the_front(rt: HostRuntime) {
    let all = with_queue([true; 8]);
    let three = with_queue([true, false, true, false, false, true, false, false]);
    let named = NamedPick::from(FetchPolicy::Iqposn);
    assert_equal(
        &rt,
        [
            picked(&Iqposn, &all, 4),
            picked(&Iqposn, &three, 4),
            picked(&named, &three, 1),
        ],
        [[6, 7, 1, 3], [0, 5, 2, 9], [0, 9, 9, 9]],
    );
}

#[test]
fn round_robin_takes_turns(rt: HostRuntime) {
    let view = with_entries(11, [4, 0, 2, 0, 9, 9, 9, 9]);
    let none = with_queue([false; 8]);
    let named = NamedPick::from(FetchPolicy::RoundRobin);
    assert_equal(
        &rt,
        [
            picked(&RoundRobin, &view, 4),
            picked(&named, &view, 2),
            picked(&RoundRobin, &none, 4),
        ],
        [[3, 4, 5, 6], [3, 4, 9, 9], [9, 9, 9, 9]],
    );
}

/// The number of the context that goes first by ranks, 8 where none is looked for.
fn first(ranks: &[u16; 8], cycle: u64) -> usize
    requires { AreRanks cycle ranks.now }
{
    match first_by_rank(u16x8::from_array(*ranks), cycle) {
        Some(context) => context.index(),
        None => 8,
    }
}

#[test]
fn the_least_key_goes_first_and_of_equal_ones_the_earlier_turn(rt: HostRuntime) {
    let [_, _, third, ..] = Ctx::all();
    let all = ranks(&[9, 7, 7, NO_COUNT, 9, 0, 1, 160], 2);
    assert_equal(
        &rt,
        [all.to_array(), without(all, third).to_array()],
        [
            [78, 63, 56, 65529, 74, 3, 12, 1285],
            [78, 63, 65528, 65529, 74, 3, 12, 1285],
        ],
    );
    let none = NO_KEY;
    assert_equal(
        &rt,
        [
            first(&[none, 57, 58, none, 76, none, none, none], 0),
            first(&[none, 63, 56, none, 74, none, none, none], 2),
            first(&[none; 8], 0),
        ],
        [1, 2, 8],
    );
}

#[test]
fn contexts_with_sixteen_fetched_entries_are_left_out(rt: HostRuntime) {
    let fetched = [0, 15, 16, 17, 80, 15, 1, 16];
    assert_equal(
        &rt,
        without_full(&[3, 0, 160, 7, 12, 15, 16, NO_COUNT], &fetched),
        [3, 0, 8191, 8191, 8191, 15, 16, 8191],
    );
}

#[test]
fn sums_are_of_each_context(rt: HostRuntime) {
    assert_equal(
        &rt,
        sums(
            &[0, 1, 80, 7, 65535, 65535, 300, 12],
            &[0, 16, 32, 0, 0, 1, 5, 12],
        ),
        [0, 17, 112, 7, 65535, 0, 305, 24],
    );
}

#[test]
fn counts_are_their_own(rt: HostRuntime) {
    let [first, second, ..] = Ctx::all();
    let busy = FetchContext {
        guessed: 2,
        missed_loads: 1,
        ..IDLE
    };
    let guessing = FetchContext { guessed: 3, ..IDLE };
    let contexts = [busy, guessing, IDLE, IDLE, IDLE, IDLE, IDLE, IDLE];
    let view = FetchView {
        cycle: 0,
        contexts: Eight::from_array(contexts),
    };
    let brcount = NamedPick::from(FetchPolicy::Brcount);
    let misscount = NamedPick::from(FetchPolicy::Misscount);
    assert_equal(
        &rt,
        [
            Brcount.key(&view, first),
            Brcount.key(&view, second),
            brcount.key(&view, first),
        ],
        [2, 3, 2],
    );
    assert_equal(
        &rt,
        [
            Misscount.key(&view, first),
            Misscount.key(&view, second),
            misscount.key(&view, first),
        ],
        [1, 0, 1],
    );
}

/// Whether a policy reads places, and whether the policy of its name does.
fn reads<P: Pick>(pick: &P, policy: FetchPolicy) -> [bool; 2] {
    [pick.reads_places(), NamedPick::from(policy).reads_places()]
}

#[test]
fn iqposn_alone_reads_places(rt: HostRuntime) {
    assert_equal(
        &rt,
        [
            reads(&Iqposn, FetchPolicy::Iqposn),
            reads(&RoundRobin, FetchPolicy::RoundRobin),
            reads(&Icount, FetchPolicy::Icount),
            reads(&Brcount, FetchPolicy::Brcount),
            reads(&Misscount, FetchPolicy::Misscount),
        ],
        [[true; 2], [false; 2], [false; 2], [false; 2], [false; 2]],
    );
}
