// What accepted lines change.
ghost use Rattle.std.specs.Prelude.{◌≡◌, OnOk, option_map, string_bytes};
ghost use Rattle.zt_protocol.specs.Plain.{plain_call, plain_line};
ghost use Rattle.zt_region.specs.South.{plain_south};
ghost use Rattle.zt_model.specs.Fabric.{call_at, call_of, new_rows, with_gateway};
ghost use Rattle.zt_model.specs.Transcript.{call_stepped, fabric_with, with_call};
ghost use Rattle.zt_model.specs.Transcript.{with_opening, with_stepped};
ghost use Rattle.zt_model.specs.Lists.{nth};
ghost use Rattle.zt_check_fabric.specs.Made.{made_at};

use crate::fabric::{ShownFabric, ShownNode};
use std::alloc::Global;
use zt_check_rows::ShownRows;
use zt_keys::{Key, Memory};
use zt_protocol::{Call, Line, Sent};
use zt_region::{Admission, Region, SouthConf, WhatAmI, Zid};

impl<'a, K: Key> ShownFabric<'a, K> {
    // A gateway is made.
    fn add_gateway(
        &mut self,
        alloc: Global,
        mode: WhatAmI,
        zid: Zid,
        regions: &[Region],
        south: &'a SouthConf,
        name: &'a Option<String>,
        timeout: u64,
        refuse: &Admission,
    ) -> Result<(), Memory>
        ensures { OnOk result (self.new ≡ with_gateway (record {
          rows = new_rows mode zid regions.now timeout refuse.now.refused.items;
          south = plain_south south.now;
          name = option_map string_bytes name.now;
        }) self.old) }
    {
        let regions = regions.to_vec(alloc)?;
        let refused = refuse.refused.to_vec(alloc)?;
        let rows = ShownRows::new(alloc, mode, zid, regions, timeout, refused);
        self.gateways.push(ShownNode { rows, south, name })?;
        Ok(())
    }

    // A call changes the rows of its gateway, where that exists.
    fn carry_at(
        &mut self,
        alloc: Global,
        gateway: u32,
        call: &Call<K>,
        sents: &[Sent<K>],
    ) -> Result<(), Memory>
        ensures { OnOk result (self.new
            ≡ with_call K.cmp K.matching sents.now
            (call_at self.old gateway (plain_call call.now)) self.old) }
    {
        let Some(node) = self.node(gateway) else {
            return Ok(());
        };
        let pendings = self.pendings_printed(alloc, gateway, node.rows(), call, sents)?;
        self.apply(alloc, gateway, pendings.as_slice(), call)
    }

    /// A call that was made changes rows.
    pub(crate) fn carry(
        &mut self,
        alloc: Global,
        made: &Option<(u32, Call<K>)>,
        sents: &[Sent<K>],
    ) -> Result<(), Memory>
        ensures { OnOk result (self.new
            ≡ with_call K.cmp K.matching sents.now (made_at self.old made.now) self.old) }
    {
        match made {
            None => Ok(()),
            Some((gateway, call)) => self.carry_at(alloc, *gateway, call, sents),
        }
    }

    // A call that was made opens a face.
    fn open_made(&mut self, alloc: Global, made: &Option<(u32, Call<K>)>) -> Result<(), Memory>
        ensures { OnOk result (self.new
            ≡ with_opening K.cmp K.matching (made_at self.old made.now) self.old) }
    {
        match made {
            None => Ok(()),
            Some((gateway, call)) => self.open(alloc, *gateway, call),
        }
    }

    // A line's call opens a face.
    fn open_by_line(&mut self, alloc: Global, line: &Line<K>) -> Result<(), Memory>
        ensures { OnOk result (self.new
            ≡ with_opening K.cmp K.matching (call_of (plain_line line.now) self.old) self.old) }
    {
        let made = self.call_of(alloc, line)?;
        self.open_made(alloc, &made)
    }

    // A line's call changes rows.
    fn call_by_line(
        &mut self,
        alloc: Global,
        line: &Line<K>,
        sents: &[Sent<K>],
    ) -> Result<(), Memory>
        ensures { OnOk result (self.new
            ≡ with_call K.cmp K.matching sents.now
            (call_of (plain_line line.now) self.old) self.old) }
    {
        let made = self.call_of(alloc, line)?;
        self.carry(alloc, &made, sents)
    }

    // The oldest message of a direction of a link is taken, and what it says is done.
    fn step(
        &mut self,
        alloc: Global,
        link: u32,
        back: bool,
        sents: &[Sent<K>],
    ) -> Result<(), Memory>
        ensures { OnOk result (self.new
            ≡ with_call K.cmp K.matching sents.now
            (call_stepped self.old back (nth link self.old.links))
            (with_stepped link back self.old)) }
    {
        let made = self.call_stepped(alloc, link, back)?;
        self.take_waiting(link, back);
        self.carry(alloc, &made, sents)
    }

    /// What an accepted line itself changes; `sents` is what is printed for it, which is heard
    /// afterwards. That numbers are given out counts as out of memory.
    #[tactic(auto, unfolding(zt_model::specs::Transcript::fabric_with))]
    pub fn carry_out(
        &mut self,
        alloc: Global,
        line: &'a Line<K>,
        sents: &[Sent<K>],
    ) -> Result<(), Memory>
        ensures { OnOk result (self.new
            ≡ fabric_with K.cmp K.matching (plain_line line.now) sents.now self.old) }
    {
        match line {
            Line::Gateway {
                mode,
                zid,
                regions,
                south,
                name,
                timeout,
                refuse,
            } => self.add_gateway(alloc, *mode, *zid, regions, south, name, *timeout, refuse),
            Line::Session { gateway, first } => self.open_session(alloc, *gateway, *first),
            Line::Face { .. } => self.open_by_line(alloc, line),
            Line::Link {
                one,
                two,
                first,
                back,
            } => self.open_link(alloc, *one, *two, *first, *back),
            Line::Unlink { link } => self.close_link(alloc, *link),
            Line::Step { link, back } => self.step(alloc, *link, *back, sents),
            Line::Speak { .. } | Line::Moment { .. } | Line::Trees { .. } => {
                self.call_by_line(alloc, line, sents)
            }
        }
    }
}
