//! How long what issues takes.

ghost use Rattle.std.specs.Prelude.{◌≡◌, ◌<◌, ◌^◌};
ghost use Rattle.hart_step.specs.Next.{stop_of};
ghost use Rattle.core_view.specs.declared.outcome.Outcome.TheVariants.{Stops};
ghost use Rattle.lawful_cycle.specs.Delays.{address_of as address_of_effect, kind_of as kind_of_operation, one_cycle};
ghost use Rattle.lawful_cycle.specs.Queries.{IsLagBy};
ghost use Rattle.entry_stages.specs.Due.{due_after as due_after_lag};

use core_view::{Decoded, Execution, OperationKind, Outcome};
use data_tags::{Delay, Kind, Lag};
use hart_step::{Effect, stop_of_fault};
use join_law::Ctx;
use paged_memory::Fault;

/// The lag of a load or store that stops.
pub const ONE_CYCLE: Lag = Lag {
    cycles: 1,
    miss: false,
};

/// What a delay is told of an operation.
#[inline(always)]
pub fn kind_of(operation: &Decoded) -> Kind
    ensures { result ≡ kind_of_operation operation.now }
{
    match operation.kind() {
        OperationKind::Jump | OperationKind::Guessed => Kind::Branch,
        OperationKind::Load => Kind::Load,
        OperationKind::Store => Kind::Store,
        OperationKind::Plain | OperationKind::Stop => Kind::Alu,
    }
}

/// The address of a load or store, 0 for other effects.
#[inline(always)]
pub fn address_of(effect: &Effect) -> u64
    ensures { result ≡ address_of_effect effect.now }
{
    match *effect {
        Effect::Loads { address, .. } | Effect::Stores { address, .. } => address,
        _ => 0,
    }
}

/// The lag of what issues: of a load or store that stops one cycle, else what the delay says.
#[inline(always)]
pub fn lag_of<D: Delay>(
    delay: &mut D,
    context: Ctx,
    kind: Kind,
    address: u64,
    outcome: &Outcome,
) -> Lag
    ensures { IsLagBy (D.may_answer delay.old) D.answer D.after_delay delay.old delay.new context kind address outcome.now result }
{
    let stops = matches!(outcome, Outcome::Stops { .. });
    if stops && matches!(kind, Kind::Load | Kind::Store) {
        return ONE_CYCLE;
    }
    delay.delay(context, kind, address)
}

/// An outcome of what issues in a cycle, due after a lag.
#[inline(always)]
pub fn due_after(cycle: u64, lag: Lag, outcome: Outcome) -> Execution
    requires { cycle < 2 ^ 56 }
    ensures { result ≡ due_after_lag cycle lag outcome }
{
    Execution {
        due: cycle + u64::from(lag.cycles),
        miss: lag.miss,
        outcome,
    }
}

/// What an access comes to that memory refuses in a cycle: a stop, due in the next.
pub fn refused(fault: Fault, cycle: u64) -> Execution
    requires { cycle < 2 ^ 56 }
    ensures { result ≡ due_after_lag cycle one_cycle (Stops (stop_of fault)) }
{
    let why = stop_of_fault(fault);
    due_after(cycle, ONE_CYCLE, Outcome::Stops { why })
}
