// The open faces, found and changed by their numbers, and found by the routers behind them.
ghost use Rattle.std.specs.Prelude.{◌≡◌, ◌==◌, ◌<◌, ◌++◌, ◌∷◌, ◌&&◌, [], filter, if◌then◌else◌, get_or};
ghost use Rattle.std.specs.Prelude.{length, map, not, set, true, IfNone, IfOk, IfSome, OnErr, OnOk};
ghost use Rattle.std.specs.Prelude.{Some};
ghost use Rattle.std.specs.Option.{option_copied};
ghost use Rattle.zt_model.specs.Lists.{first_where};
ghost use Rattle.zt_model.specs.Rows.{Face};
ghost use Rattle.zt_model.specs.Routing.{asked_as};
ghost use Rattle.zt_protocol.specs.Interest.{is_current};
ghost use Rattle.zt_region.specs.Region.{region_eq, zid_eq};
ghost use Rattle.zt_faces.specs.Asked.{AreAsked, IsAskerOf, IsKnown, asked_in};
ghost use Rattle.zt_faces.specs.Rising.{AreBelow, AreUpTo, HasNone, IsPlace, IsRising};
ghost use Rattle.zt_faces.specs.Routers.{AreStandings, HasMore, is_kept, standing_of};
ghost use Rattle.zt_faces.specs.Slots.{IsFoundIn, LosesStanding, faces_in, number_of, with_face, without_face};
ghost use Rattle.zt_faces.specs.Timed.{AreTimed, expired_among, has, timed_at};
ghost use Rattle.zt_faces.specs.declared.slots.Slot.{Slot};
ghost use Rattle.zt_faces.specs.declared.slots.Slot.TheVariants.{Open};

use crate::asked::{Asker, Askers};
use crate::by_router::{
    Standing, add_standing, copy_standings, drop_standing, first_of_router, is_kept, standing_of,
};
use crate::by_time::Times;
use crate::changes::{FaceAddition, FaceChange};
use crate::slots::{Slot, close_gaps};
use crate::walk::OpenFaces;
use std::alloc::Global;
use std::collections::BTreeSet;
use std::marker::Model;
use zt_face::{FaceState, RemoteInterest, copy_all};
use zt_keys::{Key, Memory};
use zt_protocol::InterestId;
use zt_region::{Region, Zid};

// Where the place of a number is. A binary search.
fn search_place<K: Key>(slots: &[Slot<K>], number: u32) -> Option<usize>
    requires { IsRising number_of slots.now }
    ensures found { IfSome result (λ place. IsPlace number_of number slots.now place) }
    ensures none { IfNone result (HasNone number_of number slots.now) }
{
    match slots.binary_search_by(|slot| slot.number().cmp(&number)) {
        Ok(place) => Some(place),
        Err(_) => None,
    }
}

// Whether the face of a number stands at a place.
fn is_place<K: Key>(slots: &[Slot<K>], number: u32, place: usize) -> bool
    ensures { result ≡ true → IsPlace number_of number slots.now place }
{
    match slots.get(place) {
        Some(Slot::Open(f)) => number == f.number(),
        Some(Slot::Closed(_)) | None => false,
    }
}

// Where the place of a number is, if it is found among those that may have it. Numbers count up
// from 1 and faces never come back, so before it as many numbers are missing as are among all at
// most. A binary search among these few.
fn search_near<K: Key>(slots: &[Slot<K>], number: u32) -> Option<usize>
    ensures { IfSome result (λ place. IsPlace number_of number slots.now place) }
{
    let last = slots.last()?;
    let missing = (last.number() as usize).saturating_sub(slots.len());
    let end = (number as usize).min(slots.len());
    let start = (number as usize).saturating_sub(missing + 1).min(end);
    let found = slots[start..end].binary_search_by(|slot| slot.number().cmp(&number));
    let place = start + found.ok()?;
    if is_place(slots, number, place) {
        Some(place)
    } else {
        None
    }
}

// Where the place of a number is, where gaps below it were closed.
#[inline(never)]
fn search<K: Key>(slots: &[Slot<K>], number: u32) -> Option<usize>
    requires { IsRising number_of slots.now }
    ensures found { IfSome result (λ place. IsPlace number_of number slots.now place) }
    ensures none { IfNone result (HasNone number_of number slots.now) }
{
    match search_near(slots, number) {
        Some(place) => Some(place),
        None => search_place(slots, number),
    }
}

// Where the place of a number is. Numbers count up from 1, so where no gap below it was closed it
// is at its own; otherwise it is found by binary search.
#[inline(always)]
fn place_of<K: Key>(slots: &[Slot<K>], number: u32) -> Option<usize>
    requires { IsRising number_of slots.now }
    ensures found { IfSome result (λ place. IsPlace number_of number slots.now place) }
    ensures none { IfNone result (HasNone number_of number slots.now) }
{
    let place = number.saturating_sub(1) as usize;
    if is_place(slots, number, place) {
        return Some(place);
    }
    search(slots, number)
}

// The face of a number, if it stands at a place.
#[inline(always)]
fn face_at<K: Key>(slots: &[Slot<K>], number: u32, place: usize) -> Option<&FaceState<K>>
    requires { IsRising number_of slots.now }
    ensures { IfSome result (λ f. IsFoundIn number slots.now f.now) }
{
    match slots.get(place)?.face() {
        Some(f) if f.number() == number => Some(f),
        Some(_) | None => None,
    }
}

// The face of a number, where gaps below it were closed.
fn search_face<K: Key>(slots: &[Slot<K>], number: u32) -> Option<&FaceState<K>>
    requires { IsRising number_of slots.now }
    ensures { option_copied result ≡ first_where (λ f. number == f.number) (faces_in slots.now) }
{
    match search(slots, number) {
        Some(place) => slots[place].face(),
        None => None,
    }
}

// The face of a number. It stands at its own place where no gap below it was closed.
pub(crate) fn find_in<K: Key>(slots: &[Slot<K>], number: u32) -> Option<&FaceState<K>>
    requires { IsRising number_of slots.now }
    ensures { option_copied result ≡ first_where (λ f. number == f.number) (faces_in slots.now) }
{
    match face_at(slots, number, number.saturating_sub(1) as usize) {
        Some(f) => Some(f),
        None => search_face(slots, number),
    }
}

// Changes the face at a place.
fn change_at<K: Key, C: FaceChange<K>>(slots: &mut Vec<Slot<K>>, place: usize, change: &C)
    requires { place < length slots.old.items }
    ensures { (s : Slot K) → slots.new.items
        ≡ set slots.old.items place (with_face (C.changed change.now)
        (get_or slots.old.items place s)) }
{
    slots[place].change(change);
}

// Changes the face at a place, whose next id may be higher then. After an error no face is left.
fn add_at<K: Key, C: FaceAddition<K>>(
    alloc: Global,
    slots: &mut Vec<Slot<K>>,
    highest_next: &mut u32,
    place: usize,
    addition: &C,
) -> Result<(), Memory>
    requires place { place < length slots.old.items }
    requires up_to { AreUpTo (λ f. f.next) highest_next.old (faces_in slots.old.items) }
    ensures ok { OnOk result ((s : Slot K) → slots.new.items
        ≡ set slots.old.items place (with_face (C.added addition.now)
        (get_or slots.old.items place s))) }
    ensures up_to { AreUpTo (λ f. f.next) highest_next.new (faces_in slots.new.items) }
    ensures err { OnErr result (slots.new.items ≡ []) }
{
    match slots[place].add(alloc, addition) {
        Ok(next) => {
            *highest_next = (*highest_next).max(next);
            Ok(())
        }
        Err(error) => {
            slots.clear();
            Err(error)
        }
    }
}

// Changes the face of a number.
fn change_in<K: Key, C: FaceChange<K>>(slots: &mut Vec<Slot<K>>, number: u32, change: &C)
    requires { IsRising number_of slots.old.items }
    ensures faces { faces_in slots.new.items
        ≡ map (λ f. if number == f.number then C.changed change.now f else f)
        (faces_in slots.old.items) }
    ensures rising { IsRising number_of slots.new.items }
{
    if let Some(place) = place_of(slots.as_slice(), number) {
        change_at(slots, place, change);
    }
}

// Changes the face of a number, whose next id may be higher then. After an error no face is left.
#[inline(always)]
fn add_in<K: Key, C: FaceAddition<K>>(
    alloc: Global,
    slots: &mut Vec<Slot<K>>,
    highest_next: &mut u32,
    number: u32,
    addition: &C,
) -> Result<(), Memory>
    requires rising { IsRising number_of slots.old.items }
    requires up_to { AreUpTo (λ f. f.next) highest_next.old (faces_in slots.old.items) }
    ensures ok { OnOk result (faces_in slots.new.items
        ≡ map (λ f. if number == f.number then C.added addition.now f else f)
        (faces_in slots.old.items)) }
    ensures rising { OnOk result (IsRising number_of slots.new.items) }
    ensures up_to { AreUpTo (λ f. f.next) highest_next.new (faces_in slots.new.items) }
    ensures err { OnErr result (slots.new.items ≡ []) }
{
    match place_of(slots.as_slice(), number) {
        Some(place) => add_at(alloc, slots, highest_next, place, addition),
        None => Ok(()),
    }
}

// Interests that wait no more are dropped, where they are many.
fn tidy_times<K: Key>(alloc: Global, slots: &[Slot<K>], times: &mut Times) -> Result<(), Memory>
    requires { AreTimed times.old.rows.keys (faces_in slots.now) }
    ensures { OnOk result (AreTimed times.new.rows.keys (faces_in slots.now)) }
{
    if !times.are_many() {
        return Ok(());
    }
    *times = Times::new(alloc);
    *times = Times::of_faces(alloc, OpenFaces::new(slots), slots.len())?;
    Ok(())
}

// The interest that a face is sent at a moment under an id is known from here on.
fn await_final<K: Key>(
    alloc: Global,
    slots: &[Slot<K>],
    times: &mut Times,
    number: u32,
    since: u64,
    id: u32,
) -> Result<(), Memory>
    requires { AreTimed times.old.rows.keys (faces_in slots.now) }
    ensures here { OnOk result (has (timed_at since number id) times.new.rows.keys ≡ true) }
    ensures timed { OnOk result (AreTimed times.new.rows.keys (faces_in slots.now)) }
{
    tidy_times(alloc, slots, times)?;
    times.note(since, number, id)
}

// Changes the face of a number, whose next id may be higher then, and which awaits a final.
#[inline(never)]
fn add_awaiting<K: Key, C: FaceAddition<K>>(
    alloc: Global,
    slots: &mut Vec<Slot<K>>,
    highest_next: &mut u32,
    times: &mut Times,
    number: u32,
    addition: &C,
    since: u64,
    id: u32,
) -> Result<(), Memory>
    requires awaited { C.awaited addition.now ≡ Some (since, id) }
    requires rising { IsRising number_of slots.old.items }
    requires up_to { AreUpTo (λ f. f.next) highest_next.old (faces_in slots.old.items) }
    requires timed { AreTimed times.old.rows.keys (faces_in slots.old.items) }
    ensures ok { OnOk result (faces_in slots.new.items
        ≡ map (λ f. if number == f.number then C.added addition.now f else f)
        (faces_in slots.old.items)) }
    ensures rising { OnOk result (IsRising number_of slots.new.items) }
    ensures up_to { OnOk result (AreUpTo (λ f. f.next) highest_next.new
        (faces_in slots.new.items)) }
    ensures timed { OnOk result (AreTimed times.new.rows.keys (faces_in slots.new.items)) }
{
    await_final(alloc, slots.as_slice(), times, number, since, id)?;
    add_in(alloc, slots, highest_next, number, addition)
}

// Changes the face of a number, whose next id may be higher then, and which may await a final.
#[inline(always)]
fn add_timed<K: Key, C: FaceAddition<K>>(
    alloc: Global,
    slots: &mut Vec<Slot<K>>,
    highest_next: &mut u32,
    times: &mut Times,
    number: u32,
    addition: &C,
) -> Result<(), Memory>
    requires rising { IsRising number_of slots.old.items }
    requires up_to { AreUpTo (λ f. f.next) highest_next.old (faces_in slots.old.items) }
    requires timed { AreTimed times.old.rows.keys (faces_in slots.old.items) }
    ensures ok { OnOk result (faces_in slots.new.items
        ≡ map (λ f. if number == f.number then C.added addition.now f else f)
        (faces_in slots.old.items)) }
    ensures rising { OnOk result (IsRising number_of slots.new.items) }
    ensures up_to { OnOk result (AreUpTo (λ f. f.next) highest_next.new
        (faces_in slots.new.items)) }
    ensures timed { OnOk result (AreTimed times.new.rows.keys (faces_in slots.new.items)) }
{
    match addition.awaits() {
        None => add_in(alloc, slots, highest_next, number, addition),
        Some((since, id)) => add_awaiting(
            alloc,
            slots,
            highest_next,
            times,
            number,
            addition,
            since,
            id,
        ),
    }
}

// The face at a place asks.
fn ask_at<K: Key>(
    alloc: Global,
    slots: &mut Vec<Slot<K>>,
    place: usize,
    id: InterestId,
    interest: &RemoteInterest<K>,
    pendings: &[(u32, u32)],
) -> Result<(), Memory>
    requires { place < length slots.old.items }
    ensures { OnOk result ((s : Slot K) → slots.new.items ≡ set slots.old.items place
        (with_face (asked_as pendings.now id interest.now) (get_or slots.old.items place s))) }
{
    slots[place].ask(alloc, id, interest, pendings)
}

// The face of a number asks.
fn ask_in<K: Key>(
    alloc: Global,
    slots: &mut Vec<Slot<K>>,
    number: u32,
    id: InterestId,
    interest: &RemoteInterest<K>,
    pendings: &[(u32, u32)],
) -> Result<(), Memory>
    requires { IsRising number_of slots.old.items }
    ensures faces { OnOk result (faces_in slots.new.items ≡ map (λ f. if number == f.number
        then asked_as pendings.now id interest.now f else f) (faces_in slots.old.items)) }
    ensures rising { OnOk result (IsRising number_of slots.new.items) }
{
    match place_of(slots.as_slice(), number) {
        Some(place) => ask_at(alloc, slots, place, id, interest, pendings),
        None => Ok(()),
    }
}

// What is known of asks that are gone is dropped, where that is much.
fn tidy<K: Key>(alloc: Global, slots: &[Slot<K>], askers: &mut Askers) -> Result<(), Memory>
    requires { AreAsked (asked_in askers.old.rows) (faces_in slots.now) }
    ensures { OnOk result (AreAsked (asked_in askers.new.rows) (faces_in slots.now)) }
{
    if !askers.are_many() {
        return Ok(());
    }
    *askers = Askers::new(alloc);
    *askers = Askers::of_faces(alloc, OpenFaces::new(slots), slots.len())?;
    Ok(())
}

// The ask of a face is known from here on by what it was sent as.
fn know<K: Key>(
    alloc: Global,
    slots: &[Slot<K>],
    askers: &mut Askers,
    number: u32,
    id: InterestId,
    pendings: &[(u32, u32)],
) -> Result<(), Memory>
    requires { AreAsked (asked_in askers.old.rows) (faces_in slots.now) }
    ensures here { OnOk result (IsKnown (asked_in askers.new.rows) number id pendings.now) }
    ensures asked { OnOk result (AreAsked (asked_in askers.new.rows) (faces_in slots.now)) }
{
    tidy(alloc, slots, askers)?;
    askers.note_ask(number, id, pendings)
}

// What a face asks for now is known from here on by what it was sent as, if anything.
fn know_current<K: Key>(
    alloc: Global,
    slots: &[Slot<K>],
    askers: &mut Askers,
    number: u32,
    id: InterestId,
    interest: &RemoteInterest<K>,
    pendings: &[(u32, u32)],
) -> Result<(), Memory>
    requires { AreAsked (asked_in askers.old.rows) (faces_in slots.now) }
    ensures here { OnOk result (is_current interest.now.mode ≡ true
        → IsKnown (asked_in askers.new.rows) number id pendings.now) }
    ensures asked { OnOk result (AreAsked (asked_in askers.new.rows) (faces_in slots.now)) }
{
    if interest.mode().is_current() {
        know(alloc, slots, askers, number, id, pendings)
    } else {
        Ok(())
    }
}

// The face of a number asks, and its ask is known by what it was sent as.
fn ask_known<K: Key>(
    alloc: Global,
    slots: &mut Vec<Slot<K>>,
    askers: &mut Askers,
    number: u32,
    id: InterestId,
    interest: &RemoteInterest<K>,
    pendings: &[(u32, u32)],
) -> Result<(), Memory>
    requires rising { IsRising number_of slots.old.items }
    requires asked { AreAsked (asked_in askers.old.rows) (faces_in slots.old.items) }
    ensures faces { OnOk result (faces_in slots.new.items ≡ map (λ f. if number == f.number
        then asked_as pendings.now id interest.now f else f) (faces_in slots.old.items)) }
    ensures rising { OnOk result (IsRising number_of slots.new.items) }
    ensures asked { OnOk result (AreAsked (asked_in askers.new.rows) (faces_in slots.new.items)) }
{
    know_current(
        alloc,
        slots.as_slice(),
        askers,
        number,
        id,
        interest,
        pendings,
    )?;
    ask_in(alloc, slots, number, id, interest, pendings)
}

// The face at a place goes, and leaves a gap. Answers whether one stood there.
fn close_at<K: Key>(
    slots: &mut Vec<Slot<K>>,
    routers: &mut BTreeSet<Standing>,
    place: usize,
) -> bool
    requires { place < length slots.old.items }
    ensures slots { (s : Slot K) → slots.new.items
        ≡ set slots.old.items place (without_face (get_or slots.old.items place s)) }
    ensures standings { (s : Slot K) → LosesStanding (get_or slots.old.items place s)
        routers.old.keys routers.new.keys }
{
    let Some(f) = slots[place].face() else {
        return false;
    };
    let standing = standing_of(f);
    drop_standing(routers, standing);
    slots[place] = Slot::Closed(standing.number);
    true
}

// The face of a number goes, and leaves a gap. Answers whether there was one.
fn close_in<K: Key>(slots: &mut Vec<Slot<K>>, routers: &mut BTreeSet<Standing>, number: u32) -> bool
    requires rising { IsRising number_of slots.old.items }
    requires standings { AreStandings routers.old.keys (faces_in slots.old.items) }
    ensures faces { faces_in slots.new.items
        ≡ filter (λ f. not (number == f.number)) (faces_in slots.old.items) }
    ensures rising { IsRising number_of slots.new.items }
    ensures standings { AreStandings routers.new.keys (faces_in slots.new.items) }
{
    match place_of(slots.as_slice(), number) {
        Some(place) => close_at(slots, routers, place),
        None => false,
    }
}

// The face of a number goes, and gaps are closed once they are most.
fn remove_in<K: Key>(
    slots: &mut Vec<Slot<K>>,
    routers: &mut BTreeSet<Standing>,
    open: &mut usize,
    number: u32,
)
    requires rising { IsRising number_of slots.old.items }
    requires standings { AreStandings routers.old.keys (faces_in slots.old.items) }
    ensures faces { faces_in slots.new.items
        ≡ filter (λ f. not (number == f.number)) (faces_in slots.old.items) }
    ensures rising { IsRising number_of slots.new.items }
    ensures standings { AreStandings routers.new.keys (faces_in slots.new.items) }
{
    if close_in(slots, routers, number) {
        *open = (*open).saturating_sub(1);
        close_gaps(slots, *open);
    }
}

// Whether the number is above those of all places, also of gaps.
fn is_above<K: Key>(slots: &[Slot<K>], number: u32) -> bool
    requires { IsRising number_of slots.now }
    ensures { result ≡ true → AreBelow number_of number slots.now }
{
    match slots.last() {
        None => true,
        Some(slot) => slot.number() < number,
    }
}

// A face more. One whose number isn't above those of all places counts as out of memory. After an
// error nothing changes.
fn push_in<K: Key>(
    slots: &mut Vec<Slot<K>>,
    routers: &mut BTreeSet<Standing>,
    face: FaceState<K>,
) -> Result<(), Memory>
    requires { IsRising number_of slots.old.items }
    ensures slots { OnOk result (slots.new.items ≡ slots.old.items ++ Open face ∷ []) }
    ensures below { OnOk result (AreBelow number_of face.number slots.old.items) }
    ensures more { OnOk result (HasMore (standing_of face) routers.old.keys routers.new.keys) }
    ensures err { OnErr result (slots.new.items ≡ slots.old.items) }
    ensures unchanged { OnErr result (routers.new.keys ≡ routers.old.keys) }
{
    if !is_above(slots.as_slice(), face.number()) {
        return Err(Memory);
    }
    let standing = standing_of(&face);
    slots.push(Slot::Open(face))?;
    match add_standing(routers, standing) {
        Ok(()) => Ok(()),
        Err(error) => {
            drop(slots.pop());
            Err(error)
        }
    }
}

// The first face of a region behind which the router stands. A walk.
fn walk_to_router<K: Key>(slots: &[Slot<K>], region: Region, zid: Zid) -> Option<&FaceState<K>>
    ensures { option_copied result
        ≡ first_where (λ f. region_eq f.region region && zid_eq f.zid zid) (faces_in slots.now) }
{
    for f in OpenFaces::new(slots) {
        if f.region() == region && f.zid() == zid {
            return Some(f);
        }
    }
    None
}

// The first face of a region that may be a router region behind which the router stands.
fn look_up_router<'a, K: Key>(
    slots: &'a [Slot<K>],
    routers: &BTreeSet<Standing>,
    region: Region,
    zid: Zid,
) -> Option<&'a FaceState<K>>
    requires kept { is_kept region ≡ true }
    requires rising { IsRising number_of slots.now }
    requires standings { AreStandings routers.now.keys (faces_in slots.now) }
    ensures { option_copied result
        ≡ first_where (λ f. region_eq f.region region && zid_eq f.zid zid) (faces_in slots.now) }
{
    match first_of_router(routers, region, zid) {
        Some(number) => find_in(slots, number),
        None => None,
    }
}

// The first face of a region behind which the router stands.
fn find_of_router_in<'a, K: Key>(
    slots: &'a [Slot<K>],
    routers: &BTreeSet<Standing>,
    region: Region,
    zid: Zid,
) -> Option<&'a FaceState<K>>
    requires rising { IsRising number_of slots.now }
    requires standings { AreStandings routers.now.keys (faces_in slots.now) }
    ensures { option_copied result
        ≡ first_where (λ f. region_eq f.region region && zid_eq f.zid zid) (faces_in slots.now) }
{
    if is_kept(region) {
        look_up_router(slots, routers, region, zid)
    } else {
        walk_to_router(slots, region, zid)
    }
}

/// The open faces of a gateway, in order of number, each found by its number.
#[derive(Drop)]
pub struct Faces<K: Key> {
    // Each face, or the gap that it left.
    slots: Vec<Slot<K>>,
    // How many are open.
    open: usize,
    // No face's next id is above it. It stays when faces go.
    highest_next: u32,
    // The faces by the routers behind them.
    routers: BTreeSet<Standing>,
    askers: Askers,
    times: Times,
}

impl<K: Key> Model for Faces<K> {
    ghost use Rattle.std.specs.Prelude.{List};
    ghost use Rattle.zt_model.specs.Rows.{Face};
    ghost use Rattle.zt_faces.specs.Asked.{asked_in};
    ghost use Rattle.zt_faces.specs.Indexed.{AreFound};
    ghost use Rattle.zt_faces.specs.Slots.{faces_in};

    ghost Value = { List (Face K) };

    ghost view = { λ a. faces_in a.slots.items };

    ghost invariant = { λ a. AreFound a.highest_next a.routers.keys (asked_in a.askers.rows)
        a.times.rows.keys a.slots.items };
}

impl<K: Key> Faces<K> {
    /// No face.
    pub fn new(alloc: Global) -> Self
        ensures { result ≡ [] }
    {
        Faces {
            slots: Vec::new(alloc),
            open: 0,
            highest_next: 0,
            routers: BTreeSet::new(alloc),
            askers: Askers::new(alloc),
            times: Times::new(alloc),
        }
    }

    /// A number that no face's next id is above.
    pub fn highest_next(&self) -> u32
        ensures { AreUpTo (λ f. f.next) result self.now }
    {
        self.highest_next
    }

    /// The faces, in order of number.
    pub fn iter(&self) -> OpenFaces<'_, K>
        ensures { result ≡ self.now }
    {
        OpenFaces::new(&self.slots)
    }

    /// The face of a number. Found at once where none below it was closed, else by binary search.
    pub fn find(&self, number: u32) -> Option<&FaceState<K>>
        ensures found { option_copied result ≡ first_where (λ f. number == f.number) self.now }
        ensures rising { IsRising (λ f. f.number) self.now }
    {
        find_in(&self.slots, number)
    }

    /// The first face of a region behind which the router stands. Found by binary search in regions
    /// that may be router regions, else by a walk.
    pub fn find_of_router(&self, region: Region, zid: Zid) -> Option<&FaceState<K>>
        ensures { option_copied result
            ≡ first_where (λ f. region_eq f.region region && zid_eq f.zid zid) self.now }
    {
        find_of_router_in(&self.slots, &self.routers, region, zid)
    }

    /// Changes the face of a number.
    pub fn change<C: FaceChange<K>>(&mut self, number: u32, change: &C)
        ensures { self.new
            ≡ map (λ f. if number == f.number then C.changed change.now f else f) self.old }
    {
        change_in(&mut self.slots, number, change);
    }

    /// Changes the face of a number. After an error no face is left.
    pub fn add<C: FaceAddition<K>>(
        &mut self,
        alloc: Global,
        number: u32,
        addition: &C,
    ) -> Result<(), Memory>
        ensures ok { OnOk result (self.new
            ≡ map (λ f. if number == f.number then C.added addition.now f else f) self.old) }
        ensures err { OnErr result (self.new ≡ []) }
    {
        match add_timed(
            alloc,
            &mut self.slots,
            &mut self.highest_next,
            &mut self.times,
            number,
            addition,
        ) {
            Ok(()) => Ok(()),
            Err(error) => {
                self.slots.clear();
                self.open = 0;
                self.routers.clear();
                Err(error)
            }
        }
    }

    /// Whose asks were sent upstream to a face under an id. A look-up.
    pub fn asker(&self, face: u32, id: InterestId) -> Asker
        ensures asker { IsAskerOf result face id self.now }
        ensures rising { IsRising (λ f. f.number) self.now }
    {
        self.askers.find(face, id)
    }

    /// The pendings that have waited for the timeout, by face and id. A walk over the interests that
    /// were sent so long ago, and over those that were sent before and wait no more: each of these
    /// is passed once or twice.
    pub fn expired(
        &mut self,
        alloc: Global,
        now: u64,
        timeout: u64,
    ) -> Result<Vec<(u32, u32)>, Memory>
        ensures expired { IfOk result (λ expired. expired.items
            ≡ expired_among now timeout self.old) }
        ensures kept { self.new ≡ self.old }
    {
        self.times.drop_ended(&self.slots);
        self.times.expired(alloc, &self.slots, now, timeout)
    }

    /// The face of a number asks by an interest that was sent upstream as these. After an error no
    /// face is left.
    pub fn ask(
        &mut self,
        alloc: Global,
        number: u32,
        id: InterestId,
        interest: &RemoteInterest<K>,
        pendings: &[(u32, u32)],
    ) -> Result<(), Memory>
        ensures ok { OnOk result (self.new ≡ map (λ f. if number == f.number
            then asked_as pendings.now id interest.now f else f) self.old) }
        ensures err { OnErr result (self.new ≡ []) }
    {
        match ask_known(
            alloc,
            &mut self.slots,
            &mut self.askers,
            number,
            id,
            interest,
            pendings,
        ) {
            Ok(()) => Ok(()),
            Err(error) => {
                self.slots.clear();
                self.open = 0;
                self.routers.clear();
                Err(error)
            }
        }
    }

    /// A face more, whose number is the next above `made`. After an error the faces stay.
    pub fn push(&mut self, alloc: Global, face: FaceState<K>, made: u32) -> Result<(), Memory>
        requires up_to { AreUpTo (λ f. f.number) made self.old }
        requires above { made < face.number }
        ensures ok { OnOk result (self.new ≡ self.old ++ face ∷ []) }
        ensures err { OnErr result (self.new ≡ self.old) }
    {
        let next = face.next();
        self.askers.note_face(&face)?;
        self.times.time_face(&face)?;
        push_in(&mut self.slots, &mut self.routers, face)?;
        self.open = self.open.saturating_add(1);
        self.highest_next = self.highest_next.max(next);
        Ok(())
    }

    /// The face of a number goes. The others stay where they are: no more than a few are moved for
    /// each that goes.
    pub fn remove(&mut self, number: u32)
        ensures { self.new ≡ filter (λ f. not (number == f.number)) self.old }
    {
        remove_in(&mut self.slots, &mut self.routers, &mut self.open, number);
    }

    /// Equal faces.
    pub fn copy(&self, alloc: Global) -> Result<Self, Memory>
        ensures { IfOk result (λ copy. copy ≡ self.now) }
    {
        Ok(Faces {
            slots: copy_all(alloc, self.slots.as_slice())?,
            open: self.open,
            highest_next: self.highest_next,
            routers: copy_standings(&self.routers)?,
            askers: Askers::of_faces(alloc, self.iter(), self.open)?,
            times: self.times.copy()?,
        })
    }
}
