//! Plans that are accepted, by their programs, contexts and jobs.

use crate::equal::assert_equal;
use core_profile::{FetchPolicy, ProfileFields};
use hart_step::Environment;
use lab_plan::{Job, JobStart, Plan};
use origin_set::Origin;
use rv64_asm::{Program, assemble};
use std::alloc::Global;
use std::process::Abort;

/// The plan of a text that is accepted.
fn plan_of(rt: &impl Abort, alloc: Global, text: &str) -> Plan {
    let Ok(plan) = Plan::from_text(alloc, text) else {
        panic!(rt; "refused");
    };
    plan
}

/// The program of a text, or none.
fn program_of(rt: &impl Abort, alloc: Global, text: Option<&str>) -> Option<Program> {
    let Ok(assembly) = assemble(alloc, text?) else {
        panic!(rt; "not assembled");
    };
    Some(assembly.program)
}

/// Whether a plan's contexts 0 and 1 start from these texts, and the others from none.
fn starts_from(
    rt: &impl Abort,
    alloc: Global,
    plan: &str,
    first: Option<&str>,
    second: Option<&str>,
) -> bool {
    let first = program_of(rt, alloc, first);
    let second = program_of(rt, alloc, second);
    let programs = [first, second, None, None, None, None, None, None];
    let Ok(origin) = Origin::new(programs, Environment::One) else {
        panic!(rt; "no origin");
    };
    plan_of(rt, alloc, plan).origin().same(&origin)
}

const TWO_CONTEXTS: &str =
    "contexts = [\"b\", \"a\", \"\"]\n[programs]\na = \"nop\\necall\"\nb = \".data\\n.dword 1\"\nc = \"ebreak\"\n";

const SAME_PROGRAM: &str = "contexts = [\"a\", \"a\"]\n[programs]\na = \"nop\"\n";

/// Plans, texts of the programs of contexts 0 and 1, and whether these are what the plan has them start from.
const STARTS: &[(&str, Option<&str>, Option<&str>, bool)] = &[
    ("", None, None, true),
    (
        TWO_CONTEXTS,
        Some(".data\n.dword 1"),
        Some("nop\necall"),
        true,
    ),
    (
        TWO_CONTEXTS,
        Some("nop\necall"),
        Some(".data\n.dword 1"),
        false,
    ),
    (SAME_PROGRAM, Some("nop"), Some("nop"), true),
];

#[test]
fn programs_of_contexts(rt: HostRuntime) {
    for (plan, first, second, wanted) in STARTS {
        let found = starts_from(&rt, rt.alloc(), plan, *first, *second);
        assert_equal(&rt, (*plan, found), (*plan, *wanted));
    }
}

/// A job that is wanted, and where its profile may differ from the default one.
struct Wanted {
    start: JobStart,
    limit: u64,
    targets: [u64; 8],
    fetch: FetchPolicy,
    front_delay: u64,
}

/// A job of which a plan says nothing but a limit of 0.
const BARE: Wanted = Wanted {
    start: JobStart::Opening,
    limit: 0,
    targets: [0; 8],
    fetch: FetchPolicy::Icount,
    front_delay: 2,
};

impl Wanted {
    /// Whether it is this job.
    fn is(&self, job: &Job) -> bool {
        let profile = ProfileFields {
            fetch: self.fetch,
            front_delay: self.front_delay,
            ..ProfileFields::default()
        };
        job.start == self.start
            && job.limit == self.limit
            && job.targets == self.targets
            && ProfileFields::from(job.profile) == profile
    }
}

/// Plans and their jobs.
const JOBS: &[(&str, &[Wanted])] = &[
    ("", &[]),
    (
        "contexts = [\"only\"]\n[programs]\nonly = \"ecall\"\n[[jobs]]\nlimit = 1000\ntargets = [100]\n[jobs.profile]\nfront_delay = 1\n",
        &[Wanted {
            limit: 1000,
            targets: [100, 0, 0, 0, 0, 0, 0, 0],
            front_delay: 1,
            ..BARE
        }],
    ),
    (
        "[[jobs]]\nlimit = 5\n[[jobs]]\nstart = \"furthest\"\nlimit = 1099511627776\ntargets = [3, 0, 7, 0, 0, 0, 0, 1099511627776]\nprofile = { fetch = \"RR\" }\n[[jobs]]\nlimit = 0\nstart = \"opening\"\n",
        &[
            Wanted { limit: 5, ..BARE },
            Wanted {
                start: JobStart::Furthest,
                limit: 1099511627776,
                targets: [3, 0, 7, 0, 0, 0, 0, 1099511627776],
                fetch: FetchPolicy::RoundRobin,
                ..BARE
            },
            BARE,
        ],
    ),
];

#[test]
fn jobs_in_order(rt: HostRuntime) {
    for (text, wanted) in JOBS {
        let plan = plan_of(&rt, rt.alloc(), text);
        let jobs = plan.jobs();
        let same = jobs.iter().zip(*wanted).all(|(job, it)| it.is(job));
        assert!(rt; same && jobs.len() == wanted.len(), "{text}");
    }
}
