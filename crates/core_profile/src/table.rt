//! Profiles of tables.

ghost use Rattle.std.specs.Prelude.{◌≡◌, None, IfOk, IfErr, IsOk, is_some, option_map, option_and_then, unwrap_or, Some};
ghost use Rattle.toml.specs.Data.{as_integer, as_str, get_member};
ghost use Rattle.toml.specs.View.{table_view, view};
ghost use Rattle.core_profile.specs.Fields as spec;
ghost use Rattle.core_profile.specs.Policies.{fetch_named, issue_named};
ghost use Rattle.core_profile.specs.Refusals as refusal;
ghost use Rattle.core_profile.specs.Refusals.{Finds, IsProfileOf, Refuses, wrong_number, wrong_policy, wrong_value};
ghost use Rattle.core_profile.specs.Tables.{default_of, name_of, range_of};

use crate::fault::ProfileFault;
use crate::fields::ProfileFields;
use crate::key::Key;
use crate::policy::{FetchPolicy, IssuePolicy};
use crate::profile::Profile;
use crate::ranges::in_ranges;
use crate::wrong::Wrong;
use std::alloc::Allocator;
use toml::{Table, Value};

fn wrong_fetch(value: &Value) -> Option<Wrong>
    ensures { result ≡ wrong_policy (λ name. is_some (fetch_named name)) (as_str (view value.now)) }
{
    match value.as_str() {
        None => Some(Wrong::Kind),
        Some(name) => match FetchPolicy::from_name(name) {
            Some(_) => None,
            None => Some(Wrong::Policy),
        },
    }
}

fn wrong_issue(value: &Value) -> Option<Wrong>
    ensures { result ≡ wrong_policy (λ name. is_some (issue_named name)) (as_str (view value.now)) }
{
    match value.as_str() {
        None => Some(Wrong::Kind),
        Some(name) => match IssuePolicy::from_name(name) {
            Some(_) => None,
            None => Some(Wrong::Policy),
        },
    }
}

fn wrong_in(key: Key, value: &Value) -> Option<Wrong>
    ensures { result ≡ wrong_number (range_of key) (as_integer (view value.now)) }
{
    match value.as_integer() {
        None => Some(Wrong::Kind),
        Some(number) => {
            if number >= 0 && key.allows(number as u64) {
                None
            } else {
                Some(Wrong::Range)
            }
        }
    }
}

fn wrong_at(key: Key, value: &Value) -> Option<Wrong>
    ensures { result ≡ wrong_value (range_of key) (view value.now) }
{
    match key {
        Key::Fetch => wrong_fetch(value),
        Key::Issue => wrong_issue(value),
        _ => wrong_in(key, value),
    }
}

fn fault_at<A: Allocator>(key: Key, wrong: Wrong) -> ProfileFault<A>
    ensures { Refuses result (refusal.wrong_at key wrong) }
{
    match wrong {
        Wrong::Kind => ProfileFault::WrongKind(key),
        Wrong::Range => ProfileFault::OutOfRange(key),
        Wrong::Policy => ProfileFault::UnknownPolicy(key),
    }
}

fn unknown_key<A: Allocator>(alloc: A, name: &str) -> ProfileFault<A>
    ensures { Refuses result (refusal.unknown_key name.now) }
{
    match String::from_str(alloc, name) {
        Ok(name) => ProfileFault::UnknownKey(name),
        Err(_) => ProfileFault::OutOfMemory,
    }
}

/// Refuses a table for its first key in byte order that is at fault.
fn find_fault<A: Allocator>(alloc: A, table: &Table) -> Result<(), ProfileFault<A>>
    ensures { Finds (table_view table.now) result }
{
    for (name, value) in table {
        let Some(key) = Key::from_name(name.as_str()) else {
            return Err(unknown_key(alloc, name.as_str()));
        };
        if let Some(wrong) = wrong_at(key, value) {
            return Err(fault_at(key, wrong));
        }
    }
    Ok(())
}

fn value_at<'a>(table: &'a Table, key: Key) -> Option<&'a Value>
    ensures { option_map (λ v. view v.now) result ≡ get_member (name_of key) (table_view table.now) }
{
    table.get(key.name())
}

fn number_at(table: &Table, key: Key, default: u64) -> u64
    requires { default ≡ default_of key }
    ensures { result ≡ spec.number_at key (table_view table.now) }
{
    match value_at(table, key) {
        None => default,
        Some(value) => match value.as_integer() {
            Some(number) if number >= 0 => number as u64,
            _ => default,
        },
    }
}

fn fetch_at(table: &Table) -> FetchPolicy
    ensures { result ≡ spec.fetch_at (table_view table.now) }
{
    match value_at(table, Key::Fetch) {
        None => FetchPolicy::Icount,
        Some(value) => match value.as_str() {
            None => FetchPolicy::Icount,
            Some(name) => FetchPolicy::from_name(name).unwrap_or(FetchPolicy::Icount),
        },
    }
}

fn issue_at(table: &Table) -> IssuePolicy
    ensures { result ≡ spec.issue_at (table_view table.now) }
{
    match value_at(table, Key::Issue) {
        None => IssuePolicy::OldestFirst,
        Some(value) => match value.as_str() {
            None => IssuePolicy::OldestFirst,
            Some(name) => IssuePolicy::from_name(name).unwrap_or(IssuePolicy::OldestFirst),
        },
    }
}

fn fields_at(table: &Table) -> ProfileFields
    ensures { result ≡ spec.fields_at (table_view table.now) }
{
    let default = ProfileFields::default();
    ProfileFields {
        fetch: fetch_at(table),
        issue: issue_at(table),
        num1: number_at(table, Key::Num1, default.num1),
        num2: number_at(table, Key::Num2, default.num2),
        rename_width: number_at(table, Key::RenameWidth, default.rename_width),
        issue_width: number_at(table, Key::IssueWidth, default.issue_width),
        retire_width: number_at(table, Key::RetireWidth, default.retire_width),
        issue_queue: number_at(table, Key::IssueQueue, default.issue_queue),
        reorder_buffer: number_at(table, Key::ReorderBuffer, default.reorder_buffer),
        load_queue: number_at(table, Key::LoadQueue, default.load_queue),
        store_queue: number_at(table, Key::StoreQueue, default.store_queue),
        extra_registers: number_at(table, Key::ExtraRegisters, default.extra_registers),
        front_delay: number_at(table, Key::FrontDelay, default.front_delay),
        alu_latency: number_at(table, Key::AluLatency, default.alu_latency),
        branch_latency: number_at(table, Key::BranchLatency, default.branch_latency),
        store_latency: number_at(table, Key::StoreLatency, default.store_latency),
        hit_latency: number_at(table, Key::HitLatency, default.hit_latency),
        miss_latency: number_at(table, Key::MissLatency, default.miss_latency),
    }
}

impl Profile {
    /// The profile of a table, where a key that isn't there has its default.
    ///
    /// # Errors
    /// The first key in byte order that is at fault: P1 a name that is no key, P2 a value of another kind, P3 a
    /// number out of its range, P4 a name of no policy. P5 where memory for the name of an unknown key ran out.
    pub fn from_table<A: Allocator>(alloc: A, table: &Table) -> Result<Profile, ProfileFault<A>>
        ensures { IsProfileOf (table_view table.now) result }
    {
        find_fault(alloc, table)?;
        match in_ranges(&fields_at(table)) {
            Ok(profile) => Ok(profile),
            Err(key) => Err(ProfileFault::OutOfRange(key)),
        }
    }
}
