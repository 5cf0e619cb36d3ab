//! Plans whose outcome can be read off them.
ghost use Rattle.std.specs.Prelude.{◌≡◌};
ghost use Rattle.core_run.specs.Needed.{cycles_needed};
ghost use Rattle.lab_pool.specs.Counts.{counts_in};
ghost use Rattle.lab_pool.specs.Closed.{are_closed, greatest_lag_of, is_closed_job};

use crate::copies::counts_of;
use checkpoint::Mark;
use core_profile::Profile;
use core_run::needed;
use data_tags::Latencies;
use join_law::Eight;
use lab_plan::{Job, Plan};

/// Whether each job of a plan has an issue policy under which a core never stalls, and a limit that suffices from this
/// opening on. Then, where no job runs out of memory, each context comes as far as plain RV64I does in the greatest of
/// the opening's count and all targets.
pub fn closed(plan: &Plan, opening: &Eight<Mark>) -> bool
    ensures { result ≡ are_closed (counts_in opening.now) plan.now.jobs }
{
    let starts = counts_of(opening);
    all_suffice(plan.jobs(), &starts)
}

/// Whether each job's limit suffices from these counts on.
fn all_suffice(jobs: &[Job], starts: &[u64; 8]) -> bool
    ensures { result ≡ are_closed starts.now jobs.now }
{
    for job in jobs {
        if !suffices(job, starts) {
            return false;
        }
    }
    true
}

/// Whether a job's limit suffices from these counts on.
fn suffices(job: &Job, starts: &[u64; 8]) -> bool
    ensures { result ≡ is_closed_job starts.now job.now }
{
    match needs(job, starts) {
        Some(cycles) => cycles <= job.limit,
        None => false,
    }
}

/// The limit of cycles with which a job that starts at these counts is sure to end where no context runs, by its
/// profile's latencies. For BRANCH_FIRST there is none.
pub fn needs(job: &Job, starts: &[u64; 8]) -> Option<u64>
    ensures { result ≡ cycles_needed job.now.profile (greatest_lag_of job.now.profile) starts.now job.now.targets }
{
    needed(
        &job.profile,
        greatest_lag(&job.profile),
        starts,
        &job.targets,
    )
}

/// The greatest lag of a core of a profile.
fn greatest_lag(profile: &Profile) -> u8
    ensures { result ≡ greatest_lag_of profile.now }
{
    Latencies::from(profile).greatest()
}
