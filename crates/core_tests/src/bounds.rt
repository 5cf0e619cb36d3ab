//! How many cycles suffice, and a run that is given no more.
ghost use Rattle.checkpoint.specs.Aligned.{IsAligned};

use crate::cores::{core_of, starts_with};
use branch_predict::Always;
use checkpoint::Mark;
use core_profile::{IssuePolicy, Profile, ProfileFields};
use core_run::{Outcome, Run, needed, run_to};
use data_tags::{Flat, Latencies};
use fetch_policy::RoundRobin;
use issue_queue::NamedOrder;
use join_law::Eight;
use std::alloc::Global;
use std::test::Fail;

/// Counts x5 from 10 down to 0: 21 instructions and an ECALL.
const COUNTDOWN: [u32; 4] = [0x00A0_0293, 0xFFF2_8293, 0xFE02_9EE3, 0x0000_0073];

/// Context 0 is to come to 100 instructions.
const TARGETS: [u64; 8] = [100, 0, 0, 0, 0, 0, 0, 0];

/// The default profile with an issue policy and one latency for each kind.
fn profile_of(issue: IssuePolicy, latency: u64) -> Result<Profile, Fail> {
    let fields = ProfileFields {
        issue,
        alu_latency: latency,
        branch_latency: latency,
        store_latency: latency,
        hit_latency: latency,
        miss_latency: latency,
        ..ProfileFields::default()
    };
    Profile::checked(fields).map_err(|_| "a profile".into())
}

#[test]
fn needed_of_examples(rt: HostRuntime) {
    let profile = Profile::default();
    let greatest = [0, 0, 0, 0, 0, 0, 0, 1 << 40];
    for (starts, targets, cycles) in [
        ([0; 8], TARGETS, 3240),
        ([0; 8], greatest, 32_985_348_833_520),
        ([40, 0, 0, 0, 0, 0, 0, 0], TARGETS, 2040),
        ([101, 7, 7, 7, 7, 7, 7, 7], TARGETS, 240),
    ] {
        assert_eq!(rt; needed(&profile, 20, &starts, &targets), Some(cycles));
    }
}

#[test]
fn needed_of_policies(rt: HostRuntime) -> Result<(), Fail> {
    for (issue, cycles) in [
        (IssuePolicy::OldestFirst, Some(22_680)),
        (IssuePolicy::SpecLast, Some(22_680)),
        (IssuePolicy::BranchFirst, None),
    ] {
        let profile = profile_of(issue, 200)?;
        assert_eq!(rt; needed(&profile, 200, &[0; 8], &TARGETS), cycles);
    }
    Ok(())
}

/// How a core ends from marks within 22680 cycles, and the count of context 0: each lag has 200 cycles, and each guess
/// is 0.
fn end_of(alloc: Global, issue: IssuePolicy, marks: Eight<Mark>) -> Result<(Outcome, u64), Fail>
    requires { IsAligned marks }
{
    let profile = match profile_of(issue, 200) {
        Ok(profile) => profile,
        Err(fail) => {
            drop(marks);
            return Err(fail);
        }
    };
    let delay = Flat::new(Latencies::from(&profile));
    let order = NamedOrder::from(issue);
    let core = core_of(
        alloc,
        &profile,
        marks,
        TARGETS,
        Always(0),
        RoundRobin,
        order,
        delay,
    )?;
    let Run { outcome, marks, .. } = run_to(core, 22_680);
    let count = marks.c0.count();
    drop(marks);
    Ok((outcome, count))
}

#[test]
fn countdown_in_the_cycles_needed(rt: HostRuntime) -> Result<(), Fail> {
    for issue in [IssuePolicy::OldestFirst, IssuePolicy::SpecLast] {
        let marks = starts_with(rt.alloc(), &COUNTDOWN, &[])?;
        let end = end_of(rt.alloc(), issue, marks)?;
        assert_eq!(rt; end, (Outcome::Reached, 21));
    }
    Ok(())
}
