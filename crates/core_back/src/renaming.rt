//! What a context renames in its run.

ghost use Rattle.std.specs.Prelude.{◌≡◌, ℕ, ◌<◌, ◌≤◌, length};
ghost use Rattle.data_flow.specs.Flow.{lane};
ghost use Rattle.core_context.specs.Left.{IsIdleCore};
ghost use Rattle.core_context.specs.Renamable.{IsRenamable};
ghost use Rattle.core_back.specs.Fetched.{IsRunOf};

use core_context::{Track, events};
use core_profile::Profile;
use core_view::EntryId;
use data_flow::DataFlow;
use join_law::Ctx;
use listing::Listing;
use std::alloc::Allocator;

/// The oldest fetched entries of a context are renamed in a cycle, one by one, for as long as they can be, their stamps are
/// no greater than a limit, and fewer than a width are listed. What is renamed is listed in order.
#[inline(always)]
pub(crate) fn rename_entries<A: Allocator, L: Listing<EntryId, 8>>(
    flow: &mut DataFlow<A>,
    track: &mut Track<A>,
    context: Ctx,
    cycle: u64,
    profile: &Profile,
    limit: u64,
    width: usize,
    renamed: &mut L,
)
    requires core { IsIdleCore flow.old context track.old }
    requires room { (lane flow.old context).room ≡ profile.now.reorder_buffer }
    requires width { width ≤ 8 }
    requires listed { length (L.items renamed.old) ≤ width }
    ensures run { IsRunOf profile.now cycle context limit width flow.old track.old flow.new track.new (L.items renamed.old) (L.items renamed.new) }
    ensures cannot { length (L.items renamed.new) < width → (stamp : ℕ) → stamp ≤ limit → ¬ (IsRenamable flow.new track.new profile.now cycle stamp) }
{
    for _turn in renamed.len()..width {
        let Some(stamp) = events::rename(flow, track, context, cycle, profile, limit) else {
            return;
        };
        renamed.push(id_of(context, stamp));
    }
}

/// The entry of a context with a stamp.
#[inline(always)]
fn id_of(context: Ctx, stamp: u64) -> EntryId
    ensures { result ≡ record { context = context; stamp = stamp } }
{
    EntryId { context, stamp }
}
