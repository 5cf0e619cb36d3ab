//! Why a text is no plan.

use core_profile::ProfileFault;
use join_law::Ctx;
use rv64_asm::LineFault;
use std::error::Error;
use std::fmt;

/// Why a text is no plan. It is printed as its code with its details, as `J5 loop A4 line 3`.
#[derive(Debug, Drop)]
pub enum PlanFault {
    /// J1: the text is no TOML document, or not one of a plan's form.
    Form,
    /// J2: the context names a program that the plan doesn't have.
    UnknownProgram(Ctx),
    /// J3: there are more than 4096 jobs.
    TooManyJobs,
    /// J4: the profile of the job, counted from 0, is refused.
    Profile {
        job: usize,
        fault: ProfileFault,
    },
    /// J5: the program isn't assembled; its line is counted from 1.
    Program {
        name: String,
        fault: LineFault,
        line: usize,
    },
    /// J6: memory ran out.
    OutOfMemory,
}

impl fmt::Display for PlanFault {
    ghost use Rattle.std.specs.Prelude.{Some};
    ghost use Rattle.lab_plan.specs.Codes.{fault_text};

    ghost output = { λ fault. Some (fault_text fault) };

    fn fmt<W: fmt::Write>(&self, f: &mut fmt::Formatter<W>) -> fmt::Result {
        match self {
            PlanFault::Form => f.write_str("J1"),
            PlanFault::UnknownProgram(context) => write!(f, "J2 {}", context.index()),
            PlanFault::TooManyJobs => f.write_str("J3"),
            PlanFault::Profile { job, fault } => write!(f, "J4 {job} {fault}"),
            PlanFault::Program { name, fault, line } => write!(f, "J5 {name} {fault} line {line}"),
            PlanFault::OutOfMemory => f.write_str("J6"),
        }
    }
}

impl Error for PlanFault {}
