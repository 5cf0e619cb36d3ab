//! Fields that are held against their ranges.

ghost use Rattle.std.specs.Prelude.{◌≡◌, true, false, IfOk, IfErr, Some, None};
ghost use Rattle.core_profile.specs.Fields as spec;
ghost use Rattle.core_profile.specs.Fields.{fields_of};
ghost use Rattle.core_profile.specs.Refusals.{IsChecked};
ghost use Rattle.core_profile.specs.Tables.{IsIn, allows, range_of};

use crate::fault::ProfileFault;
use crate::fields::ProfileFields;
use crate::key::Key;
use crate::profile::Profile;

/// The numbers of the fields with their keys, in the order of the bytes of the names.
fn numbers(fields: &ProfileFields) -> [(Key, u64); 16]
    ensures { result ≡ spec.numbers fields.now }
{
    [
        (Key::AluLatency, fields.alu_latency),
        (Key::BranchLatency, fields.branch_latency),
        (Key::ExtraRegisters, fields.extra_registers),
        (Key::FrontDelay, fields.front_delay),
        (Key::HitLatency, fields.hit_latency),
        (Key::IssueQueue, fields.issue_queue),
        (Key::IssueWidth, fields.issue_width),
        (Key::LoadQueue, fields.load_queue),
        (Key::MissLatency, fields.miss_latency),
        (Key::Num1, fields.num1),
        (Key::Num2, fields.num2),
        (Key::RenameWidth, fields.rename_width),
        (Key::ReorderBuffer, fields.reorder_buffer),
        (Key::RetireWidth, fields.retire_width),
        (Key::StoreLatency, fields.store_latency),
        (Key::StoreQueue, fields.store_queue),
    ]
}

/// The first key of the table whose number is out of its range.
fn first_outside(fields: &ProfileFields) -> Option<Key>
    ensures { result ≡ spec.first_outside fields.now }
{
    for (key, number) in numbers(fields) {
        if !key.allows(number) {
            return Some(key);
        }
    }
    None
}

/// A number that is in the range of its key.
#[tactic(auto, using(crate::proofs::Allowed::is_in, crate::proofs::Allowed::is_byte))]
fn narrow(number: u64, key: Key) -> u8
    requires { allows (range_of key) number ≡ true }
    ensures same { result ≡ number }
    ensures within { IsIn (range_of key) result }
{
    number as u8
}

/// The profile of fields whose numbers are all in their ranges.
fn narrowed(fields: &ProfileFields) -> Profile
    requires { spec.first_outside fields.now ≡ None }
    ensures { fields_of result ≡ fields.now }
{
    Profile {
        fetch: fields.fetch,
        issue: fields.issue,
        num1: narrow(fields.num1, Key::Num1),
        num2: narrow(fields.num2, Key::Num2),
        rename_width: narrow(fields.rename_width, Key::RenameWidth),
        issue_width: narrow(fields.issue_width, Key::IssueWidth),
        retire_width: narrow(fields.retire_width, Key::RetireWidth),
        issue_queue: narrow(fields.issue_queue, Key::IssueQueue),
        reorder_buffer: narrow(fields.reorder_buffer, Key::ReorderBuffer),
        load_queue: narrow(fields.load_queue, Key::LoadQueue),
        store_queue: narrow(fields.store_queue, Key::StoreQueue),
        extra_registers: narrow(fields.extra_registers, Key::ExtraRegisters),
        front_delay: narrow(fields.front_delay, Key::FrontDelay),
        alu_latency: narrow(fields.alu_latency, Key::AluLatency),
        branch_latency: narrow(fields.branch_latency, Key::BranchLatency),
        store_latency: narrow(fields.store_latency, Key::StoreLatency),
        hit_latency: narrow(fields.hit_latency, Key::HitLatency),
        miss_latency: narrow(fields.miss_latency, Key::MissLatency),
    }
}

/// The profile of the fields, or the first key of the table whose number is out of its range.
pub(crate) fn in_ranges(fields: &ProfileFields) -> Result<Profile, Key>
    ensures ok { IfOk result (λ p. (fields_of p ≡ fields.now) × (spec.first_outside fields.now ≡ None)) }
    ensures err { IfErr result (λ k. spec.first_outside fields.now ≡ Some k) }
{
    match first_outside(fields) {
        Some(key) => Err(key),
        None => Ok(narrowed(fields)),
    }
}

impl Profile {
    /// The profile of the fields, or P3 with the first key in byte order whose number is out of its range.
    pub fn checked(fields: ProfileFields) -> Result<Profile, ProfileFault>
        ensures { IsChecked fields result }
    {
        match in_ranges(&fields) {
            Ok(profile) => Ok(profile),
            Err(key) => Err(ProfileFault::OutOfRange(key)),
        }
    }
}
