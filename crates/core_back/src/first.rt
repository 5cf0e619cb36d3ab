//! What the parts of a machine are made of, and what is left of them.

ghost use Rattle.std.specs.Prelude.{◌≡◌, ℕ, [], ◌+◌, ◌<◌, ◌≤◌, ◌^◌, length, take, get_or, slice_index, IfOk};
ghost use Rattle.std.specs.Arc.{arc_value};
ghost use Rattle.join_law.specs.Eight.{place_of};
ghost use Rattle.origin_set.specs.Start.{start};
ghost use Rattle.data_flow.specs.Flow.{lane, with_lane};
ghost use Rattle.core_back.specs.Machine.{no_track};
ghost use Rattle.core_back.specs.Fills.{AreFills};
ghost use Rattle.core_back.specs.First.{IsTarget, IsFirstTrack, AreFirstTracks, AreFirstLanes, IsReached};

use checkpoint::Mark;
use core_context::Track;
use core_profile::Profile;
use data_flow::DataFlow;
use join_law::{Ctx, Eight};
use origin_set::Origin;
use rv64_decode::Register;
use std::alloc::{AllocError, Allocator};
use std::sync::Arc;

/// The origin of a mark, shared.
fn origin_of<A: Allocator>(mark: &Mark<A>) -> Result<Arc<Origin<A>, A>, AllocError>
    ensures { IfOk result (λ o. arc_value o ≡ mark.now.origin) }
{
    Arc::try_clone(mark.origin()).map_err(|_| AllocError)
}

/// The origins of eight marks.
pub(crate) fn origins_of<A: Allocator>(
    marks: &Eight<Mark<A>>,
) -> Result<Eight<Arc<Origin<A>, A>>, AllocError>
    ensures { IfOk result (λ os. (c : ℕ) → c < 8 → arc_value (place_of os c) ≡ (place_of marks.now c).origin) }
{
    Ok(Eight {
        c0: origin_of(&marks.c0)?,
        c1: origin_of(&marks.c1)?,
        c2: origin_of(&marks.c2)?,
        c3: origin_of(&marks.c3)?,
        c4: origin_of(&marks.c4)?,
        c5: origin_of(&marks.c5)?,
        c6: origin_of(&marks.c6)?,
        c7: origin_of(&marks.c7)?,
    })
}

/// The track of a context that starts at a mark.
fn first_track<A: Allocator + Copy>(
    alloc: A,
    mark: &Mark<A>,
    target: u64,
    profile: &Profile,
) -> Result<Track<A>, AllocError>
    requires target { target ≤ 2 ^ 60 }
    ensures { IfOk result (IsFirstTrack profile.now mark.now target) }
{
    let track = Track::new(alloc, mark.state(), mark.count(), target, profile)?;
    Ok(track)
}

/// The tracks of contexts that start at eight marks.
pub(crate) fn first_tracks<A: Allocator + Copy>(
    alloc: A,
    marks: &Eight<Mark<A>>,
    targets: &[u64; 8],
    profile: &Profile,
) -> Result<Vec<Track<A>, A>, AllocError>
    requires targets { (c : ℕ) → c < 8 → IsTarget (place_of marks.now c) (slice_index targets.now c) }
    ensures { IfOk result (λ ts. AreFirstTracks profile.now marks.now targets.now 8 ts.items) }
{
    let mut tracks = Vec::new(alloc);
    for number in 0..8usize {
        let context = Ctx::new(number).unwrap();
        let mark = marks.place(context);
        let track = first_track(alloc, mark, targets[number], profile)?;
        tracks.push(track).map_err(AllocError::from)?;
    }
    Ok(tracks)
}

/// How full the front lists of eight tracks are of which nothing is in flight.
pub(crate) fn first_fills<A: Allocator>(tracks: &[Track<A>]) -> [u16; 8]
    requires eight { length tracks.now ≡ 8 }
    requires few { (c : ℕ) → c < 8 → (get_or tracks.now c no_track).capacity ≤ 80 }
    requires empty { (c : ℕ) → c < 8 → (get_or tracks.now c no_track).context.flight ≡ [] }
    ensures { AreFills result tracks.now }
{
    let mut fills = [0; 8];
    for place in 0..8usize {
        fills[place] = tracks[place].front_fill();
    }
    fills
}

/// Sets the registers of a context.
fn set_registers<A: Allocator>(flow: &mut DataFlow<A>, context: Ctx, registers: &[u64; 32])
    requires context { context < length flow.old.lanes }
    requires count { length (lane flow.old context).registers ≡ 32 }
    requires zero { slice_index (lane flow.old context).registers 0 ≡ slice_index registers.now 0 }
    ensures { flow.new ≡ with_lane flow.old context (record (lane flow.old context) { registers = registers.now }) }
{
    for number in 1..32usize {
        let register = Register::new(number as u8);
        flow.set_register(context, register, registers[number]);
    }
}

/// The data flow of contexts that start at eight marks.
pub(crate) fn first_flow<A: Allocator + Copy>(
    alloc: A,
    marks: &Eight<Mark<A>>,
    profile: &Profile,
) -> Result<DataFlow<A>, AllocError>
    ensures { IfOk result (AreFirstLanes profile.now marks.now 8) }
{
    let mut flow = DataFlow::new(
        alloc,
        usize::from(profile.extra_registers),
        usize::from(profile.reorder_buffer),
        usize::from(profile.issue_queue),
    )?;
    for number in 0..8usize {
        let context = Ctx::new(number).unwrap();
        let mark = marks.place(context);
        let hart = mark.state();
        set_registers(&mut flow, context, hart.regs());
    }
    Ok(flow)
}

/// The mark of the last context of several.
fn last_mark<A: Allocator>(
    tracks: &mut Vec<Track<A>, A>,
    origin: Arc<Origin<A>, A>,
    number: usize,
) -> Mark<A>
    requires count { length tracks.old.items ≡ number + 1 }
    requires bound { number < 8 }
    requires reached { IsReached (start (arc_value origin) number) (get_or tracks.old.items number no_track) }
    ensures mark { result ≡ record { origin = arc_value origin; context = number; count = (get_or tracks.old.items number no_track).context.count } }
    ensures rest { tracks.new.items ≡ take number tracks.old.items }
{
    let track = tracks.pop().unwrap();
    let context = Ctx::new(number).unwrap();
    let count = track.count();
    // A target is bounded, and the count with it.
    let _target = track.target();
    Mark::from_core(origin, context, count, track.into_hart())
}

/// The marks of eight contexts.
pub(crate) fn marks_of<A: Allocator>(
    origins: Eight<Arc<Origin<A>, A>>,
    tracks: Vec<Track<A>, A>,
) -> Eight<Mark<A>>
    requires count { length tracks.items ≡ 8 }
    requires reached { (c : ℕ) → c < 8 → IsReached (start (arc_value (place_of origins c)) c) (get_or tracks.items c no_track) }
    ensures { (c : ℕ) → c < 8 → place_of result c ≡ record { origin = arc_value (place_of origins c); context = c; count = (get_or tracks.items c no_track).context.count } }
{
    let mut tracks = tracks;
    let c7 = last_mark(&mut tracks, origins.c7, 7);
    let c6 = last_mark(&mut tracks, origins.c6, 6);
    let c5 = last_mark(&mut tracks, origins.c5, 5);
    let c4 = last_mark(&mut tracks, origins.c4, 4);
    let c3 = last_mark(&mut tracks, origins.c3, 3);
    let c2 = last_mark(&mut tracks, origins.c2, 2);
    let c1 = last_mark(&mut tracks, origins.c1, 1);
    let c0 = last_mark(&mut tracks, origins.c0, 0);
    Eight {
        c0,
        c1,
        c2,
        c3,
        c4,
        c5,
        c6,
        c7,
    }
}
