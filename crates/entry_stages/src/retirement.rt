//! What the oldest entry of a context does as it retires.

ghost use Rattle.std.specs.Prelude.{◌≡◌, Some, None, IsSome, IfSome};
ghost use Rattle.core_view.specs.declared.outcome.Outcome.TheVariants.{Stops};
ghost use Rattle.hart_step.specs.State.{written};
ghost use Rattle.entry_stages.specs.Heads.{IsGoing, done_outcome, step_on};

use core_view::{Entry, Step};
use hart_step::Stop;
use hint::assert_unchecked;
use rv64_decode::Register;

/// The step of an entry that is done with one.
#[inline(always)]
pub fn step_of(entry: &Entry) -> Step
    requires { IsGoing (done_outcome entry.now.stage) }
    ensures { result ≡ step_on (done_outcome entry.now.stage) }
{
    let Some(step) = entry.stage.step() else {
        assert_unchecked(false);
        unreachable!();
    };
    step
}

/// Why an entry that is done stops its context, if it does.
#[inline(always)]
pub fn stop_of(entry: &Entry) -> Option<Stop>
    requires { IsSome (done_outcome entry.now.stage) }
    ensures goes { result ≡ None → IsGoing (done_outcome entry.now.stage) }
    ensures stops { IfSome result (λ why. done_outcome entry.now.stage ≡ Some (Stops why)) }
{
    entry.stage.stop()
}

/// A register has another value. x0 stays as it is.
#[inline(always)]
pub fn set_register(registers: &mut [u64; 32], destination: Register, value: u64)
    ensures { registers.new ≡ written registers.old destination value }
{
    let place = destination.index() as usize;
    // Without a jump: x0 gets back what it had. Of a choice the compiler makes one.
    let zero = registers[0];
    registers[place] = value;
    registers[0] = zero;
}
