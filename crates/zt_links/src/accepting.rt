// What an accepted line does and says.
ghost use Rattle.std.specs.Prelude.{◌≡◌, None, Ok, IfOk, IfSome, OnErr};
ghost use Rattle.zt_model.specs.Fabric.{call_of, fabric_after, said_by_line};
ghost use Rattle.zt_model.specs.Fabric.{sorted_by_face, without_message};
ghost use Rattle.zt_protocol.specs.Plain.{plain_line};
ghost use Rattle.zt_laws.specs.Order.{FabricIsInOrder};
ghost use Rattle.zt_laws.specs.Sound.{HasFirstIds, opens_face};
ghost use Rattle.zt_fabric_state.specs.Changes.{taken_by};
ghost use Rattle.zt_links.specs.Lines.{cause_of_line, is_opening, made_at};

use crate::calls::CallMade;
use crate::joining::link;
use crate::making::{make_call, open_face};
use crate::unlinking::unlink;
use std::alloc::Global;
use zt_fabric_state::{FabricState, add_gateway, sending_end};
use zt_keys::{Key, Memory};
use zt_protocol::{Line, Sent};

/// The face whose oldest message a delivery takes.
pub(crate) fn taken_of<K: Key>(s: &FabricState<K>, link: u32, back: bool) -> Option<u32>
    ensures { taken_by result s.now ≡ without_message link back s.now }
{
    match s.link_at(link) {
        Some(link) => Some(sending_end(link, back)),
        None => None,
    }
}

/// Carries out a line that no cause refuses, whose call is `made`. After an error nothing is
/// changed.
pub(crate) fn accept<K: Key>(
    alloc: Global,
    s: &mut FabricState<K>,
    line: &Line<K>,
    made: &Option<CallMade<K>>,
) -> Result<Vec<Sent<K>>, Memory>
    requires ids { HasFirstIds (plain_line line.now) }
    requires accepted { cause_of_line K.cmp K.matching (plain_line line.now) s.old ≡ None }
    requires call { made_at s.old made.now ≡ call_of (plain_line line.now) s.old }
    requires opens { IfSome made.now (λ m. opens_face m.1 ≡ is_opening (plain_line line.now)) }
    requires order { FabricIsInOrder K.cmp K.matching s.old }
    ensures says { IfOk result (λ sent. sent.items
        ≡ sorted_by_face (said_by_line K.cmp K.matching (plain_line line.now) s.old)) }
    ensures does { IfOk result (λ sent. s.new
        ≡ fabric_after K.cmp K.matching (plain_line line.now) (Ok sent.items) s.old) }
    ensures err { OnErr result (s.new ≡ s.old) }
{
    match line {
        Line::Gateway {
            mode,
            zid,
            regions,
            south,
            name,
            timeout,
            refuse,
        } => {
            add_gateway(
                alloc,
                s,
                *mode,
                *zid,
                regions.as_slice(),
                south,
                name,
                *timeout,
                refuse,
            )?;
            Ok(Vec::new(alloc))
        }
        Line::Session { .. } => open_face(alloc, s, made),
        Line::Face { .. } => open_face(alloc, s, made),
        Line::Link {
            one,
            two,
            first,
            back,
        } => link(alloc, s, *one, *two, *first, *back),
        Line::Unlink { link } => unlink(alloc, s, *link),
        Line::Step { link, back } => {
            let taken = taken_of(s, *link, *back);
            make_call(alloc, s, taken, made)
        }
        Line::Speak { .. } => make_call(alloc, s, None, made),
        Line::Moment { .. } => make_call(alloc, s, None, made),
        Line::Trees { .. } => make_call(alloc, s, None, made),
    }
}
