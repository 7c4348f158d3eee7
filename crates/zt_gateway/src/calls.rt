// The calls on a gateway, each by its name.
ghost use Rattle.std.specs.Prelude.{◌≡◌, ◌≤◌, IfErr, IfOk, None, OnErr, OnOk, Some, option_copied};
ghost use Rattle.std.specs.Prelude.{true};
ghost use Rattle.zt_gateway.specs.Running.{IsRefusedBy, called};
ghost use Rattle.zt_laws.specs.Sound.{CallHasFirstIds, opens_face};
ghost use Rattle.zt_model.specs.Journal.{cause_of, made_by};
ghost use Rattle.zt_protocol.specs.Plain.{CloseFace, DeclareFinal, DeclareToken, Expire, Interest};
ghost use Rattle.zt_protocol.specs.Plain.{InterestFinal, NewSession, NewTransport, SetEntities};
ghost use Rattle.zt_protocol.specs.Plain.{SetTrees, UndeclareToken, plain_call, trees_of};

use crate::copies::copy_option;
use crate::gateway::Gateway;
use zt_keys::Key;
use zt_protocol::{
    Call, CallError, InterestId, InterestMode, InterestOptions, QueryableInfo, TokenId, TreeTable,
};
use zt_region::{Bound, NodeId, Region, WhatAmI, Zid};
use zt_rollback::{copy_keys, copy_queryables};

impl<K: Key> Gateway<K> {
    // Carries out a call that makes no face.
    fn carry_out(&mut self, call: &Call<K>) -> Result<(), CallError>
        requires { CallHasFirstIds (plain_call call.now) }
        ensures refused { IfErr result
            (IsRefusedBy K.cmp K.matching (plain_call call.now) self.old.rows) }
        ensures accepted { OnOk result
            (cause_of K.cmp K.matching (plain_call call.now) self.old.rows ≡ None) }
        ensures done { OnOk result
            (self.new ≡ called K.cmp K.matching (plain_call call.now) self.old) }
        ensures err { OnErr result (self.new ≡ self.old) }
    {
        match self.call(call) {
            Ok(_) => Ok(()),
            Err(error) => Err(error),
        }
    }

    // Carries out a call that makes a face, and answers its number.
    fn make_face(&mut self, call: &Call<K>) -> Result<u32, CallError>
        requires first { CallHasFirstIds (plain_call call.now) }
        requires opens { opens_face (plain_call call.now) ≡ true }
        ensures refused { IfErr result
            (IsRefusedBy K.cmp K.matching (plain_call call.now) self.old.rows) }
        ensures accepted { OnOk result
            (cause_of K.cmp K.matching (plain_call call.now) self.old.rows ≡ None) }
        ensures done { OnOk result
            (self.new ≡ called K.cmp K.matching (plain_call call.now) self.old) }
        ensures made { IfOk result
            (λ face. made_by K.cmp K.matching (plain_call call.now) self.old.rows ≡ Some face) }
        ensures err { OnErr result (self.new ≡ self.old) }
    {
        match self.call(call) {
            Ok(Some(face)) => Ok(face),
            Ok(None) => unreachable!(),
            Err(error) => Err(error),
        }
    }

    /// Opens a session, a client's face in the region Local, whose first id is at least 1, and
    /// answers its number. Refused where all numbers of faces are given out.
    pub fn new_session(&mut self, first: u32) -> Result<u32, CallError>
        requires { 1 ≤ first }
        ensures refused { IfErr result
            (IsRefusedBy K.cmp K.matching (NewSession first) self.old.rows) }
        ensures accepted { OnOk result
            (cause_of K.cmp K.matching (NewSession first) self.old.rows ≡ None) }
        ensures done { OnOk result
            (self.new ≡ called K.cmp K.matching (NewSession first) self.old) }
        ensures made { IfOk result
            (λ face. made_by K.cmp K.matching (NewSession first) self.old.rows ≡ Some face) }
        ensures err { OnErr result (self.new ≡ self.old) }
    {
        self.make_face(&Call::NewSession { first })
    }

    /// Opens the face of a transport, whose first id is at least 1, and answers its number: Zenoh's
    /// call of this name. Refused are a region that the gateway doesn't have, a face that doesn't
    /// fit its region, a second face to the north of a client gateway, and a face for which there
    /// are too few ids or no number.
    pub fn new_transport_unicast(
        &mut self,
        zid: Zid,
        whatami: WhatAmI,
        region: Region,
        remote_bound: Bound,
        first: u32,
    ) -> Result<u32, CallError>
        requires { 1 ≤ first }
        ensures refused { IfErr result
            (IsRefusedBy K.cmp K.matching
            (NewTransport zid whatami region remote_bound first) self.old.rows) }
        ensures accepted { OnOk result
            (cause_of K.cmp K.matching
            (NewTransport zid whatami region remote_bound first) self.old.rows ≡ None) }
        ensures done { OnOk result
            (self.new ≡ called K.cmp K.matching
            (NewTransport zid whatami region remote_bound first) self.old) }
        ensures made { IfOk result
            (λ face. made_by K.cmp K.matching
            (NewTransport zid whatami region remote_bound first) self.old.rows ≡ Some face) }
        ensures err { OnErr result (self.new ≡ self.old) }
    {
        self.make_face(&Call::NewTransport {
            zid,
            whatami,
            region,
            remote_bound,
            first,
        })
    }

    /// The face declares that the token of the id is alive, or that it is in answer to an interest
    /// of the gateway; in a router region the face means a router by the node id. Refused are an
    /// unknown face, an answer of a face to the south or to no interest, an unknown router, an id
    /// that is 0 or another token's, and a call for which a face has too few ids left.
    pub fn declare_token(
        &mut self,
        face: u32,
        id: TokenId,
        expr: &K,
        node_id: NodeId,
        interest_id: Option<InterestId>,
    ) -> Result<(), CallError>
        ensures refused { IfErr result
            (IsRefusedBy K.cmp K.matching
            (DeclareToken face id expr.now node_id interest_id) self.old.rows) }
        ensures accepted { OnOk result
            (cause_of K.cmp K.matching
            (DeclareToken face id expr.now node_id interest_id) self.old.rows ≡ None) }
        ensures done { OnOk result
            (self.new ≡ called K.cmp K.matching
            (DeclareToken face id expr.now node_id interest_id) self.old) }
        ensures err { OnErr result (self.new ≡ self.old) }
    {
        let Ok(expr) = expr.copy(self.alloc) else {
            return Err(CallError::Memory);
        };
        self.carry_out(&Call::DeclareToken {
            face,
            id,
            expr,
            node_id,
            interest_id,
        })
    }

    /// The face ends an interest that it holds. Refused are an unknown face and an interest that
    /// the face doesn't hold.
    pub fn interest_final(&mut self, face: u32, id: InterestId) -> Result<(), CallError>
        ensures refused { IfErr result
            (IsRefusedBy K.cmp K.matching (InterestFinal face id) self.old.rows) }
        ensures accepted { OnOk result
            (cause_of K.cmp K.matching (InterestFinal face id) self.old.rows ≡ None) }
        ensures done { OnOk result
            (self.new ≡ called K.cmp K.matching (InterestFinal face id) self.old) }
        ensures err { OnErr result (self.new ≡ self.old) }
    {
        self.carry_out(&Call::InterestFinal { face, id })
    }

    /// The face's token under the id is gone, or where no such one is there that of the expression.
    /// Refused are an unknown face, an unknown router, and an unknown token without an expression.
    pub fn undeclare_token(
        &mut self,
        face: u32,
        id: TokenId,
        expr: Option<&K>,
        node_id: NodeId,
    ) -> Result<(), CallError>
        ensures refused { IfErr result
            (IsRefusedBy K.cmp K.matching
            (UndeclareToken face id (option_copied expr.entry) node_id) self.old.rows) }
        ensures accepted { OnOk result
            (cause_of K.cmp K.matching
            (UndeclareToken face id (option_copied expr.entry) node_id) self.old.rows ≡ None) }
        ensures done { OnOk result
            (self.new ≡ called K.cmp K.matching
            (UndeclareToken face id (option_copied expr.entry) node_id) self.old) }
        ensures err { OnErr result (self.new ≡ self.old) }
    {
        let Ok(expr) = copy_option(self.alloc, expr) else {
            return Err(CallError::Memory);
        };
        self.carry_out(&Call::UndeclareToken {
            face,
            id,
            expr,
            node_id,
        })
    }

    /// The face asks for what matches the expression, or without one for all. Refused are an
    /// unknown face, one of a router, one to the north that is no peer of a peer, what may not be
    /// asked for once, an id that an interest of the face has, an expression for which the
    /// dictionary has no room, and a call for which a face has too few ids left.
    pub fn interest(
        &mut self,
        face: u32,
        id: InterestId,
        mode: InterestMode,
        options: InterestOptions,
        expr: Option<&K>,
    ) -> Result<(), CallError>
        ensures refused { IfErr result
            (IsRefusedBy K.cmp K.matching
            (Interest face id mode options (option_copied expr.entry)) self.old.rows) }
        ensures accepted { OnOk result
            (cause_of K.cmp K.matching
            (Interest face id mode options (option_copied expr.entry)) self.old.rows ≡ None) }
        ensures done { OnOk result
            (self.new ≡ called K.cmp K.matching
            (Interest face id mode options (option_copied expr.entry)) self.old) }
        ensures err { OnErr result (self.new ≡ self.old) }
    {
        let Ok(expr) = copy_option(self.alloc, expr) else {
            return Err(CallError::Memory);
        };
        self.carry_out(&Call::Interest {
            face,
            id,
            mode,
            options,
            expr,
        })
    }

    /// The face has answered all that an interest asked for that is there now. Refused are an
    /// unknown face, one to the south, and an interest that wasn't sent to the face.
    pub fn declare_final(&mut self, face: u32, interest_id: InterestId) -> Result<(), CallError>
        ensures refused { IfErr result
            (IsRefusedBy K.cmp K.matching (DeclareFinal face interest_id) self.old.rows) }
        ensures accepted { OnOk result
            (cause_of K.cmp K.matching (DeclareFinal face interest_id) self.old.rows ≡ None) }
        ensures done { OnOk result
            (self.new ≡ called K.cmp K.matching (DeclareFinal face interest_id) self.old) }
        ensures err { OnErr result (self.new ≡ self.old) }
    {
        self.carry_out(&Call::DeclareFinal { face, interest_id })
    }

    /// The face closes: all that it declared and asked for is gone, and what waits for it. Refused
    /// is an unknown face.
    pub fn close_face(&mut self, face: u32) -> Result<(), CallError>
        ensures refused { IfErr result
            (IsRefusedBy K.cmp K.matching (CloseFace face) self.old.rows) }
        ensures accepted { OnOk result
            (cause_of K.cmp K.matching (CloseFace face) self.old.rows ≡ None) }
        ensures done { OnOk result (self.new ≡ called K.cmp K.matching (CloseFace face) self.old) }
        ensures err { OnErr result (self.new ≡ self.old) }
    {
        self.carry_out(&Call::CloseFace { face })
    }

    /// Sets the gateway's moment, and ends what has waited for the timeout. Refused is a moment
    /// before the gateway's last one.
    pub fn expire(&mut self, now: u64) -> Result<(), CallError>
        ensures refused { IfErr result (IsRefusedBy K.cmp K.matching (Expire now) self.old.rows) }
        ensures accepted { OnOk result
            (cause_of K.cmp K.matching (Expire now) self.old.rows ≡ None) }
        ensures done { OnOk result (self.new ≡ called K.cmp K.matching (Expire now) self.old) }
        ensures err { OnErr result (self.new ≡ self.old) }
    {
        self.carry_out(&Call::Expire { now })
    }

    /// Hands the trees of a router region. Refused are a link of an unknown face, a region that is
    /// no router region of the gateway, and a table that lacks a router that it names, or the
    /// gateway.
    pub fn set_trees(&mut self, region: Region, table: &TreeTable) -> Result<(), CallError>
        ensures refused { IfErr result
            (IsRefusedBy K.cmp K.matching (SetTrees region (trees_of table.now)) self.old.rows) }
        ensures accepted { OnOk result
            (cause_of K.cmp K.matching (SetTrees region (trees_of table.now)) self.old.rows
            ≡ None) }
        ensures done { OnOk result
            (self.new ≡ called K.cmp K.matching (SetTrees region (trees_of table.now)) self.old) }
        ensures err { OnErr result (self.new ≡ self.old) }
    {
        let Ok(table) = table.copy(self.alloc) else {
            return Err(CallError::Memory);
        };
        self.carry_out(&Call::SetTrees { region, table })
    }

    /// Replaces the subscribers and queryables of a face. Refused are an unknown face, and
    /// expressions for which the dictionary has no room.
    pub fn set_entities(
        &mut self,
        face: u32,
        subscribers: &[K],
        queryables: &[(K, QueryableInfo)],
    ) -> Result<(), CallError>
        ensures refused { IfErr result
            (IsRefusedBy K.cmp K.matching
            (SetEntities face subscribers.now queryables.now) self.old.rows) }
        ensures accepted { OnOk result
            (cause_of K.cmp K.matching
            (SetEntities face subscribers.now queryables.now) self.old.rows ≡ None) }
        ensures done { OnOk result
            (self.new ≡ called K.cmp K.matching
            (SetEntities face subscribers.now queryables.now) self.old) }
        ensures err { OnErr result (self.new ≡ self.old) }
    {
        let Ok(subscribers) = copy_keys(self.alloc, subscribers) else {
            return Err(CallError::Memory);
        };
        let Ok(queryables) = copy_queryables(self.alloc, queryables) else {
            return Err(CallError::Memory);
        };
        self.carry_out(&Call::SetEntities {
            face,
            subscribers,
            queryables,
        })
    }
}
