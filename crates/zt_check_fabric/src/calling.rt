// The call that a line makes.
ghost use Rattle.std.specs.Prelude.{◌≡◌, IfOk, map, option_map};
ghost use Rattle.std.specs.Option.{option_copied};
ghost use Rattle.zt_protocol.specs.Plain.{plain_call, plain_line, trees_of};
ghost use Rattle.zt_model.specs.Fabric.{call_at, call_at_place, call_face, call_of};
ghost use Rattle.zt_model.specs.Fabric.{call_of_face, call_of_step, closing_call, face_at};
ghost use Rattle.zt_model.specs.Fabric.{table_at};
ghost use Rattle.zt_model.specs.Linking.{call_of_message, oldest};
ghost use Rattle.zt_model.specs.Lists.{nth};
ghost use Rattle.zt_check_fabric.specs.Made.{made_at};

use crate::fabric::ShownFabric;
use crate::places::ShownLink;
use crate::renumbering::{call_face, with_call_face};
use std::alloc::Global;
use zt_keys::{Key, Memory};
use zt_protocol::{Call, Line, Message, TreeTable, copy_expression};
use zt_region::{NodeId, Zid};

// The call that a message is, where it is one, with the face 0.
fn call_of_message<K: Key>(alloc: Global, message: &Message<K>) -> Result<Option<Call<K>>, Memory>
    ensures { IfOk result (λ made. option_map plain_call made ≡ call_of_message 0 message.now) }
{
    Ok(match message {
        Message::DeclareToken {
            id,
            expr,
            interest_id,
            node_id,
        } => Some(Call::DeclareToken {
            face: 0,
            id: *id,
            expr: expr.copy(alloc)?,
            node_id: *node_id,
            interest_id: *interest_id,
        }),
        Message::UndeclareToken { id, expr, node_id } => Some(Call::UndeclareToken {
            face: 0,
            id: *id,
            expr: copy_expression(expr, alloc)?,
            node_id: *node_id,
        }),
        Message::DeclareFinal { interest_id } => Some(Call::DeclareFinal {
            face: 0,
            interest_id: *interest_id,
        }),
        Message::Interest {
            id,
            mode,
            options,
            expr,
        } => Some(Call::Interest {
            face: 0,
            id: *id,
            mode: *mode,
            options: *options,
            expr: copy_expression(expr, alloc)?,
        }),
        Message::InterestFinal { id } => Some(Call::InterestFinal { face: 0, id: *id }),
        Message::DeclareSubscriber { .. } | Message::DeclareQueryable { .. } => None,
    })
}

impl<'a, K: Key> ShownFabric<'a, K> {
    // A call at a gateway, where that exists.
    fn call_at(&self, gateway: u32, call: Call<K>) -> Option<(u32, Call<K>)>
        ensures { made_at self.now result ≡ call_at self.now gateway (plain_call call) }
    {
        match self.node(gateway) {
            None => None,
            Some(_) => Some((gateway, call)),
        }
    }

    // A call of the face of a number in scripts, where its gateway exists.
    fn call_at_place(
        &self,
        alloc: Global,
        call: &Call<K>,
        face: u32,
    ) -> Result<Option<(u32, Call<K>)>, Memory>
        ensures { IfOk result (λ made. made_at self.now made
            ≡ call_at_place self.now (plain_call call.now) (nth face self.now.faces)) }
    {
        let Some(place) = self.place(face) else {
            return Ok(None);
        };
        let call = with_call_face(alloc, place.face(), call)?;
        Ok(self.call_at(place.gateway(), call))
    }

    /// The call that closes the face of a number in scripts.
    pub fn closing_call(&self, alloc: Global, face: u32) -> Result<Option<(u32, Call<K>)>, Memory>
        ensures { IfOk result (λ made. made_at self.now made ≡ closing_call self.now face) }
    {
        self.call_at_place(alloc, &Call::CloseFace { face }, face)
    }

    // The call of a face that speaks.
    fn call_of_face(&self, alloc: Global, call: &Call<K>) -> Result<Option<(u32, Call<K>)>, Memory>
        ensures { IfOk result (λ made. made_at self.now made
            ≡ call_of_face self.now (plain_call call.now) (call_face (plain_call call.now))) }
    {
        match call_face(call) {
            None => Ok(None),
            Some(face) => self.call_at_place(alloc, call, face),
        }
    }

    // The oldest message of a direction of a link.
    fn oldest(&self, link: &ShownLink, back: bool) -> Option<&Message<K>>
        ensures { option_copied result ≡ oldest self.now link.now back }
    {
        self.waiting(link.sending_end(back)).first()
    }

    // The call of the oldest message of a direction, spoken by the face at the other end.
    pub(crate) fn call_stepped(
        &self,
        alloc: Global,
        link: u32,
        back: bool,
    ) -> Result<Option<(u32, Call<K>)>, Memory>
        ensures { IfOk result (λ made. made_at self.now made
            ≡ call_of_step self.now back (nth link self.now.links)) }
    {
        let Some(link) = self.link(link) else {
            return Ok(None);
        };
        let Some(message) = self.oldest(link, back) else {
            return Ok(None);
        };
        let Some(call) = call_of_message(alloc, message)? else {
            return Ok(None);
        };
        self.call_at_place(alloc, &call, link.speaking_end(back))
    }

    // The number that a face has at a gateway; 0 where it is another gateway's.
    fn face_at(&self, gateway: u32, face: u32) -> u32
        ensures { result ≡ face_at self.now gateway face }
    {
        let Some(place) = self.place(face) else {
            return 0;
        };
        if place.gateway() == gateway {
            place.face()
        } else {
            0
        }
    }

    // Links with the numbers that faces have at the gateway.
    fn links_at(
        &self,
        alloc: Global,
        gateway: u32,
        links: &[(u32, NodeId, Zid)],
    ) -> Result<Vec<(u32, NodeId, Zid)>, Memory>
        ensures { IfOk result (λ found. found.items
            ≡ map (λ l. (face_at self.now gateway l.0, l.1, l.2)) links.now) }
    {
        let mut found = Vec::new(alloc);
        for link in links {
            found.push((self.face_at(gateway, link.0), link.1, link.2))?;
        }
        Ok(found)
    }

    // A table with the numbers that faces have at the gateway.
    fn table_at(&self, alloc: Global, gateway: u32, table: &TreeTable) -> Result<TreeTable, Memory>
        ensures { IfOk result (λ at. trees_of at
            ≡ table_at self.now gateway (trees_of table.now)) }
    {
        Ok(TreeTable {
            routers: table.routers.to_vec(alloc)?,
            links: self.links_at(alloc, gateway, &table.links)?,
            children: table.children.to_vec(alloc)?,
        })
    }

    /// The one call of a line, with its gateway's number, where its gateway and face exist.
    #[tactic(auto, unfolding(zt_model::specs::Fabric::call_of))]
    pub fn call_of(&self, alloc: Global, line: &Line<K>) -> Result<Option<(u32, Call<K>)>, Memory>
        ensures { IfOk result (λ made. made_at self.now made
            ≡ call_of (plain_line line.now) self.now) }
    {
        match line {
            Line::Session { gateway, first } => {
                Ok(self.call_at(*gateway, Call::NewSession { first: *first }))
            }
            Line::Face {
                gateway,
                mode,
                zid,
                region,
                bound,
                first,
            } => {
                let call = Call::NewTransport {
                    zid: *zid,
                    whatami: *mode,
                    region: *region,
                    remote_bound: *bound,
                    first: *first,
                };
                Ok(self.call_at(*gateway, call))
            }
            Line::Speak { call } => self.call_of_face(alloc, call),
            Line::Step { link, back } => self.call_stepped(alloc, *link, *back),
            Line::Moment { gateway, now } => {
                Ok(self.call_at(*gateway, Call::Expire { now: *now }))
            }
            Line::Trees {
                gateway,
                region,
                table,
            } => {
                let table = self.table_at(alloc, *gateway, table)?;
                let region = *region;
                Ok(self.call_at(*gateway, Call::SetTrees { region, table }))
            }
            Line::Gateway { .. } | Line::Link { .. } | Line::Unlink { .. } => Ok(None),
        }
    }
}
