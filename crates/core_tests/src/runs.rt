//! Runs to their end, or to a limit of cycles.
ghost use Rattle.std.specs.Prelude.{◌≡◌, ◌≤◌, ◌<◌, ◌^◌, ℕ, slice_index};
ghost use Rattle.checkpoint.specs.Aligned.{IsAligned};
ghost use Rattle.core_cycle.specs.Shown.{shown};

use crate::cores::{core_of, front_delay, starts_with, tables_of};
use branch_predict::Tables;
use checkpoint::Mark;
use core_cycle::Core;
use core_profile::Profile;
use core_run::{Figures, Outcome, Run, run_to};
use data_tags::Tags;
use fetch_policy::NamedPick;
use issue_queue::NamedOrder;
use join_law::Eight;
use std::alloc::Global;
use std::test::Fail;

/// Counts x5 from 10 down to 0: 21 instructions and an ECALL.
const COUNTDOWN: [u32; 4] = [0x00A0_0293, 0xFFF2_8293, 0xFE02_9EE3, 0x0000_0073];

/// A nop and an ECALL.
const NOP_THEN_ECALL: [u32; 2] = [0x0000_0013, 0x0000_0073];

/// Context 0 is to retire 100 instructions.
const AHEAD: [u64; 8] = [100, 0, 0, 0, 0, 0, 0, 0];

/// Each context is at its target.
const THERE: [u64; 8] = [0; 8];

/// A core by the policies that a profile names, with its predictor and its data tags.
type TablesCore = Core<Tables, NamedPick, NamedOrder, Tags>;

/// How a run ends: the outcome, the figures, and the count of context 0.
type End = (Outcome, Figures, u64);

/// How a program at context 0 ends by a profile, its policies, its predictor and its data tags.
fn end_of(
    alloc: Global,
    profile: &Profile,
    words: &[u32],
    targets: [u64; 8],
    limit: u64,
) -> Result<End, Fail>
    requires targets { (c : ℕ) → c < 8 → slice_index targets c ≤ 2 ^ 60 }
    requires limit { limit ≤ 1000 }
{
    let (guess, delay) = tables_of(alloc, profile)?;
    let marks = starts_with(alloc, words, &[])?;
    end_from(alloc, profile, marks, guess, delay, targets, limit)
}

/// How a core ends that begins at marks, with a predictor and data tags.
fn end_from(
    alloc: Global,
    profile: &Profile,
    marks: Eight<Mark>,
    guess: Tables,
    delay: Tags,
    targets: [u64; 8],
    limit: u64,
) -> Result<End, Fail>
    requires aligned { IsAligned marks }
    requires targets { (c : ℕ) → c < 8 → slice_index targets c ≤ 2 ^ 60 }
    requires limit { limit ≤ 1000 }
{
    let pick = NamedPick::from(profile.fetch);
    let order = NamedOrder::from(profile.issue);
    let core = core_of(alloc, profile, marks, targets, guess, pick, order, delay)?;
    Ok(end_of_core(core, limit))
}

/// How a core ends that has run no cycle.
fn end_of_core(core: TablesCore, limit: u64) -> End
    requires first { (shown core).view.cycle ≡ 0 }
    requires limit { limit ≤ 1000 }
{
    let Run {
        outcome,
        figures,
        marks,
    } = run_to(core, limit);
    let count = marks.c0.count();
    drop(marks);
    (outcome, figures, count)
}

/// Figures in the order of a report.
fn figures(numbers: [u64; 6]) -> Figures {
    let [cycles, fetched, renamed, issued, retired, squashed] = numbers;
    Figures {
        cycles,
        fetched,
        renamed,
        issued,
        retired,
        squashed,
    }
}

#[test]
fn countdown(rt: HostRuntime) -> Result<(), Fail> {
    let end = end_of(rt.alloc(), &Profile::default(), &COUNTDOWN, AHEAD, 1000)?;
    let wanted = figures([27, 32, 28, 22, 21, 11]);
    assert_eq!(rt; end, (Outcome::Reached, wanted, 21));
    Ok(())
}

// That no context runs is looked at before the limit.
#[test]
fn limits(rt: HostRuntime) -> Result<(), Fail> {
    let profile = front_delay(1)?;
    for (targets, limit, outcome, cycles) in [
        (AHEAD, 0, Outcome::CycleLimit, 0),
        (THERE, 0, Outcome::Reached, 0),
        (THERE, 9, Outcome::Reached, 0),
        (AHEAD, 4, Outcome::CycleLimit, 4),
        (AHEAD, 5, Outcome::Reached, 5),
        (AHEAD, 6, Outcome::Reached, 5),
    ] {
        let end = end_of(rt.alloc(), &profile, &NOP_THEN_ECALL, targets, limit)?;
        assert_eq!(rt; (end.0, end.1.cycles), (outcome, cycles), "{limit}");
    }
    Ok(())
}

#[test]
fn no_cycle_has_no_figures(rt: HostRuntime) -> Result<(), Fail> {
    let end = end_of(rt.alloc(), &Profile::default(), &NOP_THEN_ECALL, AHEAD, 0)?;
    assert_eq!(rt; end, (Outcome::CycleLimit, Figures::new(), 0));
    Ok(())
}
