//! How many cycles the jobs of a plan need, as `bound` prints it; plans that are closed; and where their contexts come.
ghost use Rattle.std.specs.Prelude.{◌≤◌, ◌^◌};

use crate::devices::assert_answer;
use checkpoint::{Mark, starts};
use join_law::{Ctx, Eight};
use lab_commands::run::Request;
use lab_plan::Plan;
use lab_pool::{closed, needs, run_in_order};
use origin_set::Origin;
use std::alloc::Global;
use std::sync::Arc;
use std::test::Fail;

pub const BOUND: Request<'_> = Request::Bound { plan: "in" };

/// Plans, and what `bound` writes for them.
const TEXTS: &[(&str, &str)] = &[
    ("", ""),
    (
        "[[jobs]]\nlimit = 1000\ntargets = [100]\n",
        "job 0 needs 3240 limit 1000\n",
    ),
    (
        "[[jobs]]\nlimit = 0\n[[jobs]]\nlimit = 1099511627776\ntargets = [0, 0, 0, 0, 0, 0, 0, 1099511627776]\nstart = 'furthest'\n[[jobs]]\nlimit = 5\nprofile = { issue = 'BRANCH_FIRST' }\n",
        "job 0 needs 240 limit 0\njob 1 needs 32985348833520 limit 1099511627776\njob 2 open\n",
    ),
    (
        "[[jobs]]\nlimit = 22680\ntargets = [100]\nprofile = { issue = 'SPEC_LAST', store_latency = 200 }\n",
        "job 0 needs 22680 limit 22680\n",
    ),
    (
        "[[jobs]]\nlimit = 1\ntargets = [1, 2, 3, 4, 5, 6, 7, 8]\nprofile = { front_delay = 8, miss_latency = 1, hit_latency = 1 }\n",
        "job 0 needs 748 limit 1\n",
    ),
];

#[test]
fn bounds_of_plans(rt: HostRuntime) {
    let alloc = rt.alloc();
    for (plan, text) in TEXTS {
        assert_answer(&rt, &alloc, BOUND, "in", plan.as_bytes(), &[*text]);
    }
}

/// The plan of a text.
fn plan_of(alloc: Global, text: &str) -> Result<Plan, Fail> {
    match Plan::from_text(alloc, text) {
        Ok(plan) => Ok(plan),
        Err(_) => Err("refused".into()),
    }
}

/// Whether the plan of a text is closed from its starts.
fn is_closed(alloc: Global, text: &str) -> Result<bool, Fail> {
    let plan = plan_of(alloc, text)?;
    is_closed_plan(alloc, &plan)
}

/// Whether `plan` is closed from its starts.
fn is_closed_plan(alloc: Global, plan: &Plan) -> Result<bool, Fail> {
    let opening = starts(alloc, plan.origin())?;
    let is_closed = closed(plan, &opening);
    drop(opening);
    Ok(is_closed)
}

#[test]
fn plans_are_closed_by_limits_and_policies(rt: HostRuntime) -> Result<(), Fail> {
    let last = "[[jobs]]\nlimit = 3240\ntargets = [100]\n[[jobs]]\nlimit = 239\n";
    for (text, wanted) in [
        ("", true),
        ("[[jobs]]\nlimit = 3240\ntargets = [100]\n", true),
        ("[[jobs]]\nlimit = 3239\ntargets = [100]\n", false),
        (
            "[[jobs]]\nlimit = 1099511627776\nprofile = { issue = 'BRANCH_FIRST' }\n",
            false,
        ),
        (last, false),
        ("[[jobs]]\nlimit = 240\nstart = 'furthest'\n", true),
    ] {
        assert_eq!(rt; is_closed(rt.alloc(), text)?, wanted, "{text}");
    }
    Ok(())
}

#[test]
fn starts_are_taken_off(rt: HostRuntime) -> Result<(), Fail> {
    let plan = plan_of(rt.alloc(), "[[jobs]]\nlimit = 1\ntargets = [100, 5]\n")?;
    let needed = match plan.jobs().first() {
        Some(job) => needs(job, &[40, 9, 0, 0, 0, 0, 0, 0]),
        None => None,
    };
    drop(plan);
    assert_eq!(rt; needed, Some(2040));
    Ok(())
}

/// Twelve jobs over four programs, four of them from the furthest, each with a limit that suffices. `down` stops after
/// 21 instructions, `stop` after none, and the others never.
const TWELVE: &str = "contexts = ['down', 'up', 'stop', 'store', 'down', 'up', '', 'store']\n\
    [programs]\n\
    down = \"addi x5, x0, 10\\nnext: addi x5, x5, -1\\nbnez x5, next\\necall\"\n\
    up = \"next: addi x5, x5, 1\\nandi x6, x5, 3\\nbnez x6, next\\nj next\"\n\
    stop = 'ecall'\n\
    store = \"lui x8, 0x100\\nnext: sd x5, 0(x8)\\nld x5, 0(x8)\\naddi x5, x5, 1\\nj next\\n.data\\n.dword 0\"\n\
    [[jobs]]\nlimit = 100000\ntargets = [9, 9, 9, 9, 9, 9, 9, 9]\n\
    [[jobs]]\nlimit = 100000\ntargets = [20, 20, 20, 20, 20, 20, 20, 20]\nprofile = { fetch = 'RR', num1 = 1, num2 = 4 }\n\
    [[jobs]]\nstart = 'furthest'\nlimit = 100000\ntargets = [30, 30]\nprofile = { fetch = 'BRCOUNT', issue = 'SPEC_LAST' }\n\
    [[jobs]]\nlimit = 100000\ntargets = [0, 0, 50, 50]\nprofile = { fetch = 'MISSCOUNT', miss_latency = 60 }\n\
    [[jobs]]\nlimit = 100000\nprofile = { fetch = 'IQPOSN' }\n\
    [[jobs]]\nstart = 'furthest'\nlimit = 100000\ntargets = [3, 3, 3, 3, 30, 31, 32, 33]\nprofile = { reorder_buffer = 8 }\n\
    [[jobs]]\nlimit = 100000\ntargets = [0, 1]\nprofile = { front_delay = 8, alu_latency = 7 }\n\
    [[jobs]]\nlimit = 100000\ntargets = [5, 40, 5, 5, 5, 5, 5, 5]\nprofile = { retire_width = 1 }\n\
    [[jobs]]\nstart = 'furthest'\nlimit = 100000\ntargets = [0, 0, 0, 0, 0, 41]\nprofile = { load_queue = 4, store_queue = 4 }\n\
    [[jobs]]\nlimit = 100000\ntargets = [7, 7, 7, 7, 7, 7, 7, 35]\nprofile = { issue_width = 1, rename_width = 1 }\n\
    [[jobs]]\nlimit = 100000\ntargets = [40]\nprofile = { issue = 'SPEC_LAST', issue_queue = 8 }\n\
    [[jobs]]\nstart = 'furthest'\nlimit = 100000\ntargets = [0, 0, 0, 0, 44, 0, 0, 0]\nprofile = { num1 = 4, num2 = 2 }\n";

/// The greatest target of each context in these jobs.
const MOST: [u64; 8] = [40, 40, 50, 50, 44, 41, 32, 35];

/// How far a context comes by plain steps, at most so many.
fn plain_count(alloc: Global, origin: &Arc<Origin>, context: Ctx, most: u64) -> Result<u64, Fail>
    requires { most ≤ 2 ^ 40 }
{
    let mut mark = Mark::start(alloc, origin, context)?;
    let advanced = mark.advance(most);
    let count = mark.count();
    drop(mark);
    advanced?;
    Ok(count)
}

/// How far the contexts of a plan come: by its jobs, and then each by plain steps to the greatest target.
fn ends_of(alloc: Global, plan: &Plan) -> Result<([u64; 8], [u64; 8]), Fail> {
    let opening = starts(alloc, plan.origin())?;
    let done = run_in_order(alloc, plan, opening)?;
    let by_jobs = counts_of(&done.marks);
    drop(done);
    let mut by_steps = [0; 8];
    for context in Ctx::all() {
        let place = context.index();
        by_steps[place] = plain_count(alloc, plan.origin(), context, MOST[place])?;
    }
    Ok((by_jobs, by_steps))
}

/// The counts of marks.
fn counts_of(marks: &Eight<Mark>) -> [u64; 8] {
    let Eight {
        c0,
        c1,
        c2,
        c3,
        c4,
        c5,
        c6,
        c7,
    } = marks;
    [
        c0.count(),
        c1.count(),
        c2.count(),
        c3.count(),
        c4.count(),
        c5.count(),
        c6.count(),
        c7.count(),
    ]
}

#[test]
fn twelve_closed_jobs(rt: HostRuntime) -> Result<(), Fail> {
    let alloc = rt.alloc();
    assert!(rt; is_closed(alloc, TWELVE)?);
    let plan = plan_of(alloc, TWELVE)?;
    let ends = ends_of(alloc, &plan);
    drop(plan);
    let outcome = [21, 40, 0, 50, 21, 41, 0, 35];
    assert_eq!(rt; ends?, (outcome, outcome));
    Ok(())
}
