// What a fabric keeps: gateways, the places of their faces, links, and what waits on them.
ghost use Rattle.std.specs.Prelude.{◌≡◌, ◌+◌, ◌-◌, ◌<◌, ◌≤◌, ◌&&◌, ◌++◌, [], ◌∷◌, false, true};
ghost use Rattle.std.specs.Prelude.{None, Some, if◌then◌else◌, length, take, vec_len, IfOk, OnOk};
ghost use Rattle.std.specs.Prelude.{OnErr};
ghost use Rattle.std.specs.Option.{option_copied};
ghost use Rattle.zt_model.specs.Fabric.{at_nth, empty_fabric, with_gateway, with_rows};
ghost use Rattle.zt_model.specs.Fabric.{with_waiting};
ghost use Rattle.zt_model.specs.Linking.{is_end_of, with_taken};
ghost use Rattle.zt_model.specs.Lists.{first_where, nth, without_id};
ghost use Rattle.zt_link_queues.specs.Found.{AreBelow};
ghost use Rattle.zt_fabric_state.specs.Changes.{IsAfter, taken_by, without_last_link};
ghost use Rattle.zt_fabric_state.specs.Changes.{without_last_place};
ghost use Rattle.zt_link_queues.specs.Waiting.{first_waiting};
ghost use Rattle.zt_region.specs.South.{plain_south as plain_south_of};
ghost use Rattle.zt_model.specs.Places.{Node};
ghost use Rattle.zt_model.specs.Says.{said};
ghost use Rattle.zt_protocol.specs.Plain.{plain_call};
ghost use Rattle.zt_laws.specs.Sound.{rows_after_call};

use crate::places::member_at;
use std::alloc::Global;
use std::marker::Model;
use zt_keys::{Key, Memory};
use zt_link_queues::{LinkState, Links, PlaceState, Places, Queues};
use zt_protocol::{Call, Message, Sent};
use zt_region::SouthConf;
use zt_rollback::{Ahead, BoxedState, Former, RestorableState, Turn};
use zt_state::GatewayState;

/// A gateway with what its links are made by: its configuration of the south, and its name.
#[derive(Drop)]
pub struct NodeState<K: Key> {
    pub(crate) kept: RestorableState<K>,
    pub(crate) south: SouthConf,
    pub(crate) name: Option<String>,
}

impl<K: Key> Model for NodeState<K> {
    ghost use Rattle.std.specs.Prelude.{option_map, string_bytes};
    ghost use Rattle.zt_model.specs.Places.{Node};
    ghost use Rattle.zt_region.specs.South.{plain_south};

    ghost Value = { Node K };

    ghost view = { λ n. record {
      rows = n.kept;
      south = plain_south n.south;
      name = option_map string_bytes n.name;
    } };
}

impl<K: Key> NodeState<K> {
    /// What the gateway keeps. `Memory` comes only after a call that ran out of memory, until
    /// `FabricState::restore` has brought back what was lost.
    pub fn rows(&self) -> Result<&GatewayState<K>, Memory>
        ensures { IfOk result (λ rows. rows.now ≡ self.now.rows) }
    {
        self.kept.state().ok_or(Memory)
    }

    /// The configuration of the south.
    pub fn south(&self) -> &SouthConf
        ensures { plain_south_of result.now ≡ self.now.south }
    {
        &self.south
    }
}

/// Gateways, the places of all faces, the links and what waits on them, each numbered from 1 in
/// order of making.
pub struct FabricState<K: Key> {
    gateways: Vec<NodeState<K>>,
    places: Places,
    links: Links,
    // What waits at each place.
    queues: Queues<K>,
    // How many calls were begun at gateways, and not done, since all of these were last restored:
    // one for each gateway, at least, that has lost what it keeps.
    unfinished: usize,
}

// A drop of its own: the crates above prove one call, and not the drop of each field.
impl<K: Key> Drop for FabricState<K> {
    fn drop(self) {
        let FabricState {
            gateways: _,
            places: _,
            links: _,
            queues: _,
            unfinished: _,
        } = self;
    }
}

impl<K: Key> Model for FabricState<K> {
    ghost use Rattle.zt_model.specs.Places.{Fabric as FabricValue};
    ghost use Rattle.zt_fabric_state.specs.Joints.{StandTogether};
    ghost use Rattle.zt_link_queues.specs.Waiting.{waiting_from};

    ghost Value = { FabricValue K };

    ghost view = { λ s. record {
      gateways = s.gateways.items;
      faces = s.places;
      links = s.links;
      waiting = waiting_from 1 s.queues;
    } };

    ghost invariant = { λ s. StandTogether s.queues s.places s.links };
}

impl<K: Key> FabricState<K> {
    /// A fabric without gateways, to which they are added.
    pub fn new(alloc: Global) -> Self
        ensures { result ≡ empty_fabric }
    {
        FabricState {
            gateways: Vec::new(alloc),
            places: Places::new(alloc),
            links: Links::new(alloc),
            queues: Queues::new(alloc),
            unfinished: 0,
        }
    }

    /// The gateways, in order of number.
    pub fn gateways(&self) -> &[NodeState<K>]
        ensures { result.now ≡ self.now.gateways }
    {
        self.gateways.as_slice()
    }

    /// The places of the faces, in order of number.
    pub fn places(&self) -> &Places
        ensures { result.now ≡ self.now.faces }
    {
        &self.places
    }

    /// The links, open and closed, in order of number.
    pub fn links(&self) -> &[LinkState]
        ensures { result.now ≡ self.now.links }
    {
        self.links.as_slice()
    }

    /// The place of a face, where the face exists.
    pub fn place_at(&self, face: u32) -> Option<&PlaceState>
        ensures { option_copied result ≡ nth face self.now.faces }
    {
        member_at(self.places.as_slice(), face)
    }

    /// The link of a number, where there is one.
    pub fn link_at(&self, link: u32) -> Option<&LinkState>
        ensures { option_copied result ≡ nth link self.now.links }
    {
        member_at(self.links.as_slice(), link)
    }

    /// The open link that a face ends, where it ends one.
    pub fn open_link_of(&self, face: u32) -> Option<&LinkState>
        ensures { option_copied result
            ≡ first_where (λ link. link.is_open && is_end_of face link) self.now.links }
    {
        self.links.find_open(face)
    }

    /// The oldest message that waits, from a face that ends a link, for the other end.
    pub(crate) fn first_waiting(&self, face: u32) -> Option<&Message<K>>
        ensures { option_copied result ≡ first_waiting face self.now.waiting }
    {
        self.queues.first(face)
    }

    /// What calls that ran out of memory lost is brought back, so that `NodeState::rows` answers
    /// again. Gateways are gone over only where a call wasn't done.
    pub fn restore(&mut self, alloc: Global) -> Result<(), Memory>
        ensures { self.new ≡ self.old }
    {
        if self.unfinished > 0 {
            restore_all(alloc, &mut self.gateways)?;
            self.unfinished = 0;
        }
        Ok(())
    }

    /// Carries a call out at a gateway, which is as before it until the call is committed.
    pub(crate) fn prepare_at(
        &mut self,
        alloc: Global,
        at: usize,
        call: &Call<K>,
    ) -> Result<Ahead<K>, Memory>
        requires { at < length self.old.gateways }
        ensures state { IfOk result
            (λ ahead. (node : Node K) → nth (at + 1) self.old.gateways ≡ Some node
            → ahead.state ≡ rows_after_call K.cmp K.matching (plain_call call.now) node.rows) }
        ensures said { IfOk result
            (λ ahead. (node : Node K) → nth (at + 1) self.old.gateways ≡ Some node
            → ahead.said.items ≡ said K.cmp K.matching (plain_call call.now) node.rows) }
        ensures same { self.new ≡ self.old }
    {
        self.unfinished = self.unfinished.saturating_add(1);
        prepare_in(alloc, &mut self.gateways, at, call)
    }

    /// A gateway keeps the rows that a call leaves which was prepared there.
    pub(crate) fn commit_at(
        &mut self,
        alloc: Global,
        at: usize,
        rows: BoxedState<K>,
        call: &Call<K>,
    )
        requires within { at < length self.old.gateways }
        requires after { (node : Node K) → nth (at + 1) self.old.gateways ≡ Some node
            → rows ≡ rows_after_call K.cmp K.matching (plain_call call.now) node.rows }
        ensures { self.new ≡ with_rows (at + 1) (λ _. rows) self.old }
    {
        commit_in(alloc, &mut self.gateways, at, rows, call);
        self.unfinished = self.unfinished.saturating_sub(1);
    }

    /// Carries a call out at a gateway for a line that may fail yet, and answers what the gateway
    /// was before, and what the call says. After an error nothing is changed.
    pub(crate) fn turn_at(
        &mut self,
        alloc: Global,
        at: usize,
        call: &Call<K>,
    ) -> Result<Turn<K>, Memory>
        requires { at < length self.old.gateways }
        ensures state { OnOk result (self.new ≡ with_rows (at + 1)
            (rows_after_call K.cmp K.matching (plain_call call.now)) self.old) }
        ensures former { IfOk result
            (λ turn. (node : Node K) → nth (at + 1) self.old.gateways ≡ Some node
            → turn.former.rows ≡ node.rows) }
        ensures call { IfOk result (λ turn. turn.former.call ≡ plain_call call.now) }
        ensures said { IfOk result
            (λ turn. (node : Node K) → nth (at + 1) self.old.gateways ≡ Some node
            → turn.said.items ≡ said K.cmp K.matching (plain_call call.now) node.rows) }
        ensures err { OnErr result (self.new ≡ self.old) }
    {
        self.unfinished = self.unfinished.saturating_add(1);
        let turn = turn_in(alloc, &mut self.gateways, at, call)?;
        Ok(turn)
    }

    /// A gateway is again what it was before a call.
    pub(crate) fn undo_at(&mut self, at: usize, former: Former<K>)
        requires { at < length self.old.gateways }
        ensures { self.new ≡ with_rows (at + 1) (λ _. former.rows) self.old }
    {
        undo_in(&mut self.gateways, at, former);
    }

    /// A call that was carried out at a gateway by `turn_at` stays.
    pub(crate) fn settle_at(&mut self, at: usize, former: Former<K>)
        requires within { at < length self.old.gateways }
        requires after { IsAfter K.cmp K.matching (Some former) (at + 1) self.old }
        ensures { self.new ≡ self.old }
    {
        settle_in(&mut self.gateways, at, former);
        self.unfinished = self.unfinished.saturating_sub(1);
    }

    /// A gateway is put behind the others. After an error nothing is changed.
    pub(crate) fn push_gateway(&mut self, node: NodeState<K>) -> Result<(), Memory>
        ensures ok { OnOk result (self.new ≡ with_gateway node self.old) }
        ensures err { OnErr result (self.new ≡ self.old) }
    {
        self.gateways.push(node)?;
        Ok(())
    }

    /// A place is put behind the others. After an error nothing is changed.
    pub(crate) fn push_place(
        &mut self,
        alloc: Global,
        gateway: u32,
        face: u32,
    ) -> Result<(), Memory>
        ensures ok { OnOk result (self.new
            ≡ record self.old {
              faces = self.old.faces ++ record { gateway = gateway; face = face }
                  ∷ [];
            }) }
        ensures free { OnOk result (AreBelow (length self.new.faces) self.new.links) }
        ensures back { OnOk result (without_last_place self.new ≡ self.old) }
        ensures err { OnErr result (self.new ≡ self.old) }
    {
        push_both(
            alloc,
            &mut self.places,
            &mut self.queues,
            gateway,
            face,
            false,
        )
    }

    /// A place that ends an open link is put behind the others, and nothing waits there. After an
    /// error nothing is changed.
    pub fn push_end(&mut self, alloc: Global, gateway: u32, face: u32) -> Result<(), Memory>
        ensures ok { OnOk result (self.new ≡ record self.old {
          faces = self.old.faces ++ record { gateway = gateway; face = face } ∷ [];
          waiting = self.old.waiting ++ (length self.old.faces + 1, []) ∷ [];
        }) }
        ensures free { OnOk result (AreBelow (length self.new.faces) self.new.links) }
        ensures back { OnOk result (without_last_place self.new ≡ self.old) }
        ensures err { OnErr result (self.new ≡ self.old) }
    {
        push_both(
            alloc,
            &mut self.places,
            &mut self.queues,
            gateway,
            face,
            true,
        )
    }

    /// The last place, which no link has yet, is taken away again, with what waits there.
    pub fn pop_place(&mut self)
        requires { AreBelow (length self.old.faces) self.old.links }
        ensures { self.new ≡ without_last_place self.old }
    {
        pop_both(&mut self.places, &mut self.queues);
    }

    /// An open link between two faces, which come behind those of all others, is put behind these.
    /// After an error nothing is changed.
    pub fn push_link(&mut self, one: u32, two: u32) -> Result<(), Memory>
        requires below { AreBelow one self.old.links }
        requires rising { one < two }
        requires placed { two ≤ length self.old.faces }
        ensures ok { OnOk result (self.new ≡ record self.old {
          links = self.old.links ++ record { one = one; two = two; is_open = true } ∷ [];
        }) }
        ensures back { OnOk result (without_last_link self.new ≡ self.old) }
        ensures err { OnErr result (self.new ≡ self.old) }
    {
        self.links.push(one, two)
    }

    /// The last link is taken away again.
    pub fn pop_link(&mut self)
        ensures { self.new ≡ without_last_link self.old }
    {
        self.links.pop();
    }

    /// The link at a place, counted from 0, is closed.
    pub fn shut_link(&mut self, at: usize)
        requires { at < length self.old.links }
        ensures { self.new
            ≡ record self.old {
              links = at_nth (at + 1)
                  (λ l. record l { is_open = false }) self.old.links;
            } }
    {
        self.links.shut(at);
    }

    /// The oldest message of a face's link is taken, and then messages wait, each where its face
    /// ends an open link. After an error nothing is changed.
    pub fn turn_waiting(
        &mut self,
        alloc: Global,
        taken: Option<u32>,
        sent: &[Sent<K>],
    ) -> Result<(), Memory>
        ensures ok { OnOk result (self.new ≡ with_waiting sent.now (taken_by taken self.old)) }
        ensures err { OnErr result (self.new ≡ self.old) }
    {
        self.queues.take_and_add(alloc, taken, sent)
    }

    /// The oldest message that waits at a face is taken.
    pub(crate) fn take_waiting(&mut self, face: u32)
        ensures { self.new ≡ with_taken face self.old }
    {
        self.queues.drop_first(face);
    }

    /// A face ends no open link any more, and what waits there is dropped.
    pub fn close_end(&mut self, face: u32)
        ensures { self.new ≡ record self.old { waiting = without_id face self.old.waiting } }
    {
        self.queues.close(face);
    }
}

/// One more place, and what waits there: nothing yet. After an error nothing is changed.
fn push_both<K: Key>(
    alloc: Global,
    places: &mut Places,
    queues: &mut Queues<K>,
    gateway: u32,
    face: u32,
    ends_link: bool,
) -> Result<(), Memory>
    ensures places { OnOk result (places.new
        ≡ places.old ++ record { gateway = gateway; face = face } ∷ []) }
    ensures queues { OnOk result
        (queues.new ≡ queues.old ++ (if ends_link then Some [] else None) ∷ []) }
    ensures places_err { OnErr result (places.new ≡ places.old) }
    ensures queues_err { OnErr result (queues.new ≡ queues.old) }
{
    queues.push(alloc, ends_link)?;
    match places.push(gateway, face) {
        Ok(()) => Ok(()),
        Err(_) => {
            queues.pop();
            Err(Memory)
        }
    }
}

/// The last place goes, with what waits there.
fn pop_both<K: Key>(places: &mut Places, queues: &mut Queues<K>)
    ensures places { places.new ≡ take (length places.old - 1) places.old }
    ensures queues { queues.new ≡ take (length queues.old - 1) queues.old }
{
    places.pop();
    queues.pop();
}

/// What each gateway keeps is there.
fn restore_all<K: Key>(alloc: Global, gateways: &mut Vec<NodeState<K>>) -> Result<(), Memory>
    ensures { gateways.new.items ≡ gateways.old.items }
{
    for node in gateways.iter_mut() {
        node.kept.restore(alloc)?;
    }
    Ok(())
}

fn prepare_in<K: Key>(
    alloc: Global,
    gateways: &mut Vec<NodeState<K>>,
    at: usize,
    call: &Call<K>,
) -> Result<Ahead<K>, Memory>
    requires { at < vec_len gateways.old }
    ensures state { IfOk result
        (λ ahead. (node : Node K) → nth (at + 1) gateways.old.items ≡ Some node
        → ahead.state ≡ rows_after_call K.cmp K.matching (plain_call call.now) node.rows) }
    ensures said { IfOk result
        (λ ahead. (node : Node K) → nth (at + 1) gateways.old.items ≡ Some node
        → ahead.said.items ≡ said K.cmp K.matching (plain_call call.now) node.rows) }
    ensures same { gateways.new.items ≡ gateways.old.items }
{
    let node = &mut gateways[at];
    node.kept.prepare(alloc, call)
}

fn commit_in<K: Key>(
    alloc: Global,
    gateways: &mut Vec<NodeState<K>>,
    at: usize,
    rows: BoxedState<K>,
    call: &Call<K>,
)
    requires within { at < vec_len gateways.old }
    requires after { (node : Node K) → nth (at + 1) gateways.old.items ≡ Some node
        → rows ≡ rows_after_call K.cmp K.matching (plain_call call.now) node.rows }
    ensures { gateways.new.items
        ≡ at_nth (at + 1) (λ node. record node { rows = rows }) gateways.old.items }
{
    let node = &mut gateways[at];
    node.kept.commit(alloc, rows, call);
}

fn turn_in<K: Key>(
    alloc: Global,
    gateways: &mut Vec<NodeState<K>>,
    at: usize,
    call: &Call<K>,
) -> Result<Turn<K>, Memory>
    requires { at < vec_len gateways.old }
    ensures state { OnOk result (gateways.new.items
        ≡ at_nth (at + 1) (λ node. record node {
          rows = rows_after_call K.cmp K.matching (plain_call call.now) node.rows;
        }) gateways.old.items) }
    ensures former { IfOk result
        (λ turn. (node : Node K) → nth (at + 1) gateways.old.items ≡ Some node
        → turn.former.rows ≡ node.rows) }
    ensures call { IfOk result (λ turn. turn.former.call ≡ plain_call call.now) }
    ensures said { IfOk result
        (λ turn. (node : Node K) → nth (at + 1) gateways.old.items ≡ Some node
        → turn.said.items ≡ said K.cmp K.matching (plain_call call.now) node.rows) }
    ensures err { OnErr result (gateways.new.items ≡ gateways.old.items) }
{
    let node = &mut gateways[at];
    node.kept.turn(alloc, call)
}

fn undo_in<K: Key>(gateways: &mut Vec<NodeState<K>>, at: usize, former: Former<K>)
    requires { at < vec_len gateways.old }
    ensures { gateways.new.items
        ≡ at_nth (at + 1) (λ node. record node { rows = former.rows }) gateways.old.items }
{
    let node = &mut gateways[at];
    node.kept.undo(former);
}

fn settle_in<K: Key>(gateways: &mut Vec<NodeState<K>>, at: usize, former: Former<K>)
    requires within { at < vec_len gateways.old }
    requires after { (node : Node K) → nth (at + 1) gateways.old.items ≡ Some node
        → node.rows ≡ rows_after_call K.cmp K.matching former.call former.rows }
    ensures { gateways.new.items ≡ gateways.old.items }
{
    let node = &mut gateways[at];
    node.kept.settle(former);
}
