//! What tests run a core on: programs at the eight contexts, and a core that starts there.
ghost use Rattle.std.specs.Prelude.{◌≡◌, ◌≤◌, ◌<◌, ◌^◌, ℕ, IfOk, slice_index};
ghost use Rattle.checkpoint.specs.Aligned.{IsAligned};
ghost use Rattle.core_cycle.specs.Shown.{shown};

use branch_predict::{Guess, Tables};
use checkpoint::{Mark, starts};
use core_cycle::Core;
use core_profile::{Profile, ProfileFields};
use data_tags::{Delay, Latencies, Tags};
use fetch_policy::Pick;
use hart_step::Environment;
use issue_queue::Order;
use join_law::Eight;
use origin_set::Origin;
use rv64_asm::Program;
use std::alloc::Global;
use std::sync::Arc;
use std::test::Fail;

/// A program of words and bytes of data.
pub fn program_of(alloc: Global, words: &[u32], bytes: &[u8]) -> Result<Program, Fail> {
    let words = Vec::from_slice(alloc, words)?;
    let bytes = Vec::from_slice(alloc, bytes)?;
    Ok(Program::new(words, bytes))
}

/// The origin of a program at each context.
pub fn origin_of(alloc: Global, programs: [Option<Program>; 8]) -> Result<Arc<Origin>, Fail> {
    let origin = Origin::new(programs, Environment::One)?;
    Ok(Arc::new(alloc, origin)?)
}

/// The starts of an origin with a program at context 0.
pub fn starts_with(alloc: Global, words: &[u32], bytes: &[u8]) -> Result<Eight<Mark>, Fail>
    ensures { IfOk result (λ marks. IsAligned marks) }
{
    let program = program_of(alloc, words, bytes)?;
    let origin = origin_of(
        alloc,
        [Some(program), None, None, None, None, None, None, None],
    )?;
    Ok(starts(alloc, &origin)?)
}

/// The predictor and the data tags of a profile.
pub fn tables_of(alloc: Global, profile: &Profile) -> Result<(Tables, Tags), Fail> {
    let tables = Tables::new(alloc)?;
    let tags = Tags::new(alloc, Latencies::from(profile))?;
    Ok((tables, tags))
}

/// The default profile with another front delay.
pub fn front_delay(cycles: u64) -> Result<Profile, Fail> {
    let fields = ProfileFields {
        front_delay: cycles,
        ..ProfileFields::default()
    };
    Profile::checked(fields).map_err(|_| "a profile".into())
}

/// A core whose contexts start at marks, each with the count that it is to reach. It has run no cycle.
pub fn core_of<G: Guess + Drop, P: Pick + Drop, O: Order + Drop, D: Delay + Drop>(
    alloc: Global,
    profile: &Profile,
    marks: Eight<Mark>,
    targets: [u64; 8],
    guess: G,
    pick: P,
    order: O,
    delay: D,
) -> Result<Core<G, P, O, D>, Fail>
    requires aligned { IsAligned marks }
    requires targets { (c : ℕ) → c < 8 → slice_index targets c ≤ 2 ^ 60 }
    ensures first { IfOk result (λ core. (shown core).view.cycle ≡ 0) }
{
    match Core::new(alloc, profile, marks, targets, guess, pick, order, delay) {
        Ok(core) => Ok(core),
        Err(refused) => {
            let (marks, fault) = refused;
            drop(marks);
            Err(fault.into())
        }
    }
}
