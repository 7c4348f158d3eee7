// Faces that lines open and close, and links between them.
ghost use Rattle.std.specs.Prelude.{◌≡◌, ◌+◌, ◌++◌, ◌∷◌, [], false, true, is_some, length};
ghost use Rattle.std.specs.Prelude.{IfOk, OnOk, option_map};
ghost use Rattle.zt_protocol.specs.Plain.{plain_call};
ghost use Rattle.zt_model.specs.Fabric.{both_ends, call_at, closing_call, next_face, with_place};
ghost use Rattle.zt_model.specs.Fabric.{with_rows, with_session};
ghost use Rattle.zt_model.specs.Linking.{link_ends, with_link, without_link};
ghost use Rattle.zt_model.specs.Lists.{nth, without_id};
ghost use Rattle.zt_model.specs.Places.{at_nth};
ghost use Rattle.zt_model.specs.Shown.{rows_shown};
ghost use Rattle.zt_model.specs.Transcript.{with_call, with_closings, with_opening};
ghost use Rattle.zt_model.specs.Transcript.{with_openings};
ghost use Rattle.zt_check_fabric.specs.Linked.{first_call, given_at, second_call};

use crate::ends::end_call;
use crate::fabric::ShownFabric;
use crate::places::{ShownLink, ShownPlace, close_link};
use crate::queues::ShownQueue;
use std::alloc::Global;
use zt_check_faces::remove;
use zt_keys::{Key, Memory};
use zt_protocol::Call;

// The number of the next member of a list. The only error is that the numbers are given out.
fn next_number(length: usize) -> Result<u32, Memory>
    ensures { IfOk result (λ number. number ≡ length + 1) }
{
    if length >= 4294967295 {
        return Err(Memory);
    }
    Ok(length as u32 + 1)
}

impl<'a, K: Key> ShownFabric<'a, K> {
    // The number of the face that a gateway makes next; 0 where there is no gateway.
    fn next_face(&self, gateway: u32) -> Result<u32, Memory>
        ensures { IfOk result (λ made. made ≡ next_face (nth gateway self.now.gateways)) }
    {
        let Some(node) = self.node(gateway) else {
            return Ok(0);
        };
        match node.rows().made().checked_add(1) {
            None => Err(Memory),
            Some(made) => Ok(made),
        }
    }

    // The face that a gateway makes next has its place behind the others.
    fn add_place(&mut self, gateway: u32) -> Result<(), Memory>
        ensures { OnOk result (self.new ≡ with_place gateway self.old) }
    {
        let face = self.next_face(gateway)?;
        self.faces.push(ShownPlace::new(gateway, face))?;
        Ok(())
    }

    // Whether there is a gateway of the number.
    fn has_node(&self, gateway: u32) -> bool
        ensures { result ≡ is_some (nth gateway self.now.gateways) }
    {
        match self.node(gateway) {
            None => false,
            Some(_) => true,
        }
    }

    // A call opens a face at this number, which has its place behind the others.
    fn open_at(&mut self, alloc: Global, gateway: u32, call: &Call<K>) -> Result<(), Memory>
        ensures { OnOk result (self.new
            ≡ with_rows gateway (rows_shown K.cmp [] (plain_call call.now))
            (with_place gateway self.old)) }
    {
        self.add_place(gateway)?;
        self.apply(alloc, gateway, &[], call)
    }

    /// A call opens a face of a gateway, where that exists.
    pub(crate) fn open(&mut self, alloc: Global, gateway: u32, call: &Call<K>) -> Result<(), Memory>
        ensures { OnOk result (self.new
            ≡ with_opening K.cmp K.matching
            (call_at self.old gateway (plain_call call.now)) self.old) }
    {
        if self.has_node(gateway) {
            return self.open_at(alloc, gateway, call);
        }
        Ok(())
    }

    /// A session opens.
    pub(crate) fn open_session(
        &mut self,
        alloc: Global,
        gateway: u32,
        first: u32,
    ) -> Result<(), Memory>
        ensures { OnOk result (self.new ≡ with_session gateway first self.old) }
    {
        self.open_at(alloc, gateway, &Call::NewSession { first })
    }

    // The number in scripts of the face that is made next.
    fn next_place(&self) -> Result<u32, Memory>
        ensures { IfOk result (λ number. number ≡ length self.now.faces + 1) }
    {
        next_number(self.faces.len())
    }

    // An open link between two faces.
    fn push_link(&mut self, one: u32, two: u32) -> Result<(), Memory>
        ensures { OnOk result (self.new ≡ record self.old {
          links = self.old.links ++ record { one = one; two = two; is_open = true } ∷ [];
        }) }
    {
        self.links.push(ShownLink::new(one, two))?;
        Ok(())
    }

    // Nothing waits for the other end of a face's link yet.
    fn push_queue(&mut self, alloc: Global, face: u32) -> Result<(), Memory>
        ensures { OnOk result (self.new ≡ record self.old {
          waiting = self.old.waiting ++ (face, []) ∷ [];
        }) }
    {
        self.waiting.push((face, ShownQueue::new(alloc)))?;
        Ok(())
    }

    // A link between the two faces that are made next.
    fn add_link(&mut self, alloc: Global) -> Result<(), Memory>
        ensures { OnOk result (self.new ≡ with_link self.old) }
    {
        let one = self.next_place()?;
        let two = next_number(one as usize)?;
        self.push_link(one, two)?;
        self.push_queue(alloc, one)?;
        self.push_queue(alloc, two)
    }

    // The calls that open the ends of a link.
    fn end_calls(
        &self,
        alloc: Global,
        one: u32,
        two: u32,
        first: u32,
        back: u32,
    ) -> Result<(Option<Call<K>>, Option<Call<K>>), Memory>
        ensures one { IfOk result (λ calls. option_map plain_call calls.0
            ≡ first_call (link_ends self.now one two first back)) }
        ensures two { IfOk result (λ calls. option_map plain_call calls.1
            ≡ second_call (link_ends self.now one two first back)) }
    {
        let Some(own) = self.node(one) else {
            return Ok((None, None));
        };
        let Some(other) = self.node(two) else {
            return Ok((None, None));
        };
        let forth = end_call(alloc, own, other, first)?;
        let back = end_call(alloc, other, own, back)?;
        Ok((forth, back))
    }

    // A face at an end of a link opens, where the ends agree.
    fn open_end(
        &mut self,
        alloc: Global,
        gateway: u32,
        call: &Option<Call<K>>,
    ) -> Result<(), Memory>
        ensures { OnOk result (self.new
            ≡ with_opening K.cmp K.matching
            (given_at self.old gateway (option_map plain_call call.now)) self.old) }
    {
        match call {
            None => Ok(()),
            Some(call) => self.open(alloc, gateway, call),
        }
    }

    /// Two gateways are joined.
    pub(crate) fn open_link(
        &mut self,
        alloc: Global,
        one: u32,
        two: u32,
        first: u32,
        back: u32,
    ) -> Result<(), Memory>
        ensures { OnOk result (self.new
            ≡ with_openings K.cmp K.matching
            (link_ends self.old one two first back) (with_link self.old)) }
    {
        let calls = self.end_calls(alloc, one, two, first, back)?;
        self.add_link(alloc)?;
        self.open_end(alloc, one, &calls.0)?;
        self.open_end(alloc, two, &calls.1)
    }

    // A face of a number in scripts is closed.
    fn close_face(&mut self, alloc: Global, face: u32) -> Result<(), Memory>
        ensures { OnOk result (self.new
            ≡ with_call K.cmp K.matching [] (closing_call self.old face) self.old) }
    {
        let made = self.closing_call(alloc, face)?;
        let none = Vec::new(alloc);
        self.carry(alloc, &made, none.as_slice())
    }

    // A link is closed, and what waits at its ends is dropped.
    fn drop_link(&mut self, number: u32, one: u32, two: u32)
        ensures { self.new ≡ record self.old {
          links = at_nth number (λ l. record l { is_open = false }) self.old.links;
          waiting = without_id one (without_id two self.old.waiting);
        } }
    {
        close_link(&mut self.links, number);
        remove(&mut self.waiting, two);
        remove(&mut self.waiting, one);
    }

    /// A link and the faces at its ends are closed.
    pub(crate) fn close_link(&mut self, alloc: Global, number: u32) -> Result<(), Memory>
        ensures { OnOk result (self.new
            ≡ without_link number (with_closings K.cmp K.matching
            (both_ends K.cmp K.matching self.old number) self.old)) }
    {
        let Some(link) = self.link(number) else {
            return Ok(());
        };
        let (one, two) = (link.one(), link.two());
        self.close_face(alloc, one)?;
        self.close_face(alloc, two)?;
        self.drop_link(number, one, two);
        Ok(())
    }
}
