//! Origins: the programs that eight contexts start from, and the environment that they run in.
#![tactic(auto)]

ghost use Rattle.std.specs.Prelude.{◌≡◌, ◌↔◌, All, IsTrue, IsOk, IfOk, OnErr, Err, replicate};
ghost use Rattle.join_law.specs.Eight.{places};
ghost use Rattle.origin_set.specs.Limits.{IsWithinLimits};
ghost use Rattle.origin_set.specs.OriginBytes.{origin_bytes};
ghost use Rattle.origin_set.specs.Start.{start, start_memory};
ghost use Rattle.paged_memory.specs.Regions.{text_start};
ghost use Rattle.sha2.specs.Sha256.{sha256};

mod fault;
mod hashing;

pub use fault::OriginFault;
use hart_step::{Environment, Hart};
use hashing::hash_program;
use join_law::{Ctx, Eight};
use paged_memory::{Memory, TEXT_START, has_room};
use rv64_asm::Program;
use sha2::{Digest, Sha256};
use std::alloc::{AllocError, Allocator, Global};
use std::marker::Model;

/// A program or none for each of eight contexts, and their environment. It never changes.
#[derive(Drop)]
pub struct Origin<A: Allocator = Global> {
    environment: Environment,
    programs: Eight<Option<Program<A>>>,
}

impl<A: Allocator> Model for Origin<A> {
    ghost use Rattle.std.specs.Prelude.{All};
    ghost use Rattle.join_law.specs.Eight.{places};
    ghost use Rattle.origin_set.specs.Limits.{IsWithinLimits};
    ghost use Rattle.origin_set.specs.OriginValue.{OriginValue};

    ghost Value = { OriginValue };

    ghost view = { λ o. record { environment = o.environment; programs = o.programs } };

    ghost invariant = { λ o. All IsWithinLimits (places o.programs) };
}

impl<A: Allocator> Origin<A> {
    /// The origin of the programs of contexts 0 to 7. O1 is returned exactly where one of them has too many pages;
    /// nothing grows.
    pub fn new(
        programs: [Option<Program<A>>; 8],
        environment: Environment,
    ) -> Result<Self, OriginFault>
        ensures fits { IsOk result ↔ All IsWithinLimits programs }
        ensures environment { IfOk result (λ origin. origin.environment ≡ environment) }
        ensures programs { IfOk result (λ origin. places origin.programs ≡ programs) }
        ensures err { OnErr result (result ≡ Err OriginFault.TooManyPages) }
    {
        let programs = Eight::from_array(programs);
        if are_within_limits(&programs) {
            Ok(Origin {
                environment,
                programs,
            })
        } else {
            Err(OriginFault::TooManyPages)
        }
    }

    /// The environment.
    pub fn environment(&self) -> Environment
        ensures { result ≡ self.now.environment }
    {
        self.environment
    }

    /// A context before its first instruction. O2 is the only refusal.
    pub fn hart(&self, alloc: A, context: Ctx) -> Result<Hart<A>, OriginFault>
        ensures ok { IfOk result (λ hart. hart ≡ start self.now context) }
        ensures err { OnErr result (result ≡ Err OriginFault.OutOfMemory) }
    {
        match start_memory(alloc, self.programs.place(context)) {
            Ok(memory) => Ok(first_hart(memory, self.environment)),
            Err(_) => Err(OriginFault::OutOfMemory),
        }
    }

    /// Whether all contents are equal: the environment, and each context's words and bytes.
    pub fn same(&self, other: &Origin<A>) -> bool
        ensures { IsTrue result ↔ (self.now ≡ other.now) }
    {
        self.environment == other.environment && are_same(&self.programs, &other.programs)
    }

    /// The SHA-256 digest of all contents.
    pub fn digest(&self) -> [u8; 32]
        ensures { result ≡ sha256 (origin_bytes self.now) }
    {
        let mut hasher = Sha256::new();
        hasher.update([self.environment.number()]);
        hash_program(&mut hasher, &self.programs.c0);
        hash_program(&mut hasher, &self.programs.c1);
        hash_program(&mut hasher, &self.programs.c2);
        hash_program(&mut hasher, &self.programs.c3);
        hash_program(&mut hasher, &self.programs.c4);
        hash_program(&mut hasher, &self.programs.c5);
        hash_program(&mut hasher, &self.programs.c6);
        hash_program(&mut hasher, &self.programs.c7);
        hasher.finalize()
    }
}

// Whether a program has no more pages than it may have.
fn is_within_limits<A: Allocator>(program: &Option<Program<A>>) -> bool
    ensures { IsTrue result ↔ IsWithinLimits program.now }
{
    match program {
        None => true,
        Some(program) => has_room(program.words(), program.bytes()),
    }
}

// Whether each program is within the limits.
fn are_within_limits<A: Allocator>(programs: &Eight<Option<Program<A>>>) -> bool
    ensures { IsTrue result ↔ All IsWithinLimits (places programs.now) }
{
    is_within_limits(&programs.c0)
        && is_within_limits(&programs.c1)
        && is_within_limits(&programs.c2)
        && is_within_limits(&programs.c3)
        && is_within_limits(&programs.c4)
        && is_within_limits(&programs.c5)
        && is_within_limits(&programs.c6)
        && is_within_limits(&programs.c7)
}

// The memory of a context before its first instruction.
fn start_memory<A: Allocator>(
    alloc: A,
    program: &Option<Program<A>>,
) -> Result<Memory<A>, AllocError>
    requires { IsWithinLimits program.now }
    ensures { IfOk result (λ memory. memory ≡ start_memory program.now) }
{
    match program {
        None => Memory::new(alloc, &[], &[]),
        Some(program) => Memory::new(alloc, program.words(), program.bytes()),
    }
}

// A hart before its first instruction.
fn first_hart<A: Allocator>(memory: Memory<A>, environment: Environment) -> Hart<A>
    ensures { result ≡ record { registers = replicate 32 0; pc = text_start; memory = memory; environment = environment } }
{
    Hart::new([0; 32], TEXT_START, memory, environment)
}

// Whether two programs have the same words and bytes.
fn has_same_parts<A: Allocator>(left: &Program<A>, right: &Program<A>) -> bool
    ensures { IsTrue result ↔ (left.now ≡ right.now) }
{
    left.words() == right.words() && left.bytes() == right.bytes()
}

// Whether two programs are the same, or there are none.
fn is_same<A: Allocator>(left: &Option<Program<A>>, right: &Option<Program<A>>) -> bool
    ensures { IsTrue result ↔ (left.now ≡ right.now) }
{
    match (left, right) {
        (None, None) => true,
        (Some(left), Some(right)) => has_same_parts(left, right),
        _ => false,
    }
}

// Whether the programs of each context are the same.
fn are_same<A: Allocator>(
    left: &Eight<Option<Program<A>>>,
    right: &Eight<Option<Program<A>>>,
) -> bool
    ensures { IsTrue result ↔ (left.now ≡ right.now) }
{
    is_same(&left.c0, &right.c0)
        && is_same(&left.c1, &right.c1)
        && is_same(&left.c2, &right.c2)
        && is_same(&left.c3, &right.c3)
        && is_same(&left.c4, &right.c4)
        && is_same(&left.c5, &right.c5)
        && is_same(&left.c6, &right.c6)
        && is_same(&left.c7, &right.c7)
}
