// What calls change at faces.
use crate::changes::Change;
use crate::face::ShownFace;
use crate::interest::ShownInterest;
use std::alloc::Global;
use zt_keys::{Key, Memory};
use zt_protocol::{Message, QueryableInfo};

/// The face has a token under an id.
#[derive(Drop)]
pub struct AddToken<'a, K: Key> {
    pub face: u32,
    pub id: u32,
    pub expr: &'a K,
}

impl<'a, K: Key> Change<ShownFace<K>> for AddToken<'a, K> {
    ghost use Rattle.zt_model.specs.Shown.{with_token};
    ghost use Rattle.zt_check_faces.specs.Faces.{if_number};

    ghost changed = { λ c. if_number c.face (with_token c.id c.expr.now) };

    fn change(&self, alloc: Global, face: &mut ShownFace<K>) -> Result<(), Memory> {
        if self.face == face.number() {
            face.add_token(alloc, self.id, self.expr)?;
        }
        Ok(())
    }
}

/// The token of an id goes.
#[derive(Drop)]
pub struct DropToken {
    pub face: u32,
    pub id: u32,
}

impl<K: Key> Change<ShownFace<K>> for DropToken {
    ghost use Rattle.zt_model.specs.Shown.{without_token};
    ghost use Rattle.zt_check_faces.specs.Faces.{if_number};

    ghost changed = { λ c. if_number c.face (without_token c.id) };

    fn change(&self, _alloc: Global, face: &mut ShownFace<K>) -> Result<(), Memory> {
        if self.face == face.number() {
            face.drop_token(self.id);
        }
        Ok(())
    }
}

/// The face asks and holds an interest, which was sent upstream as these.
#[derive(Drop)]
pub struct AddInterest<'a, K: Key> {
    pub face: u32,
    pub id: u32,
    pub interest: &'a ShownInterest<K>,
    pub pendings: &'a [(u32, u32)],
}

impl<'a, K: Key> Change<ShownFace<K>> for AddInterest<'a, K> {
    ghost use Rattle.zt_model.specs.Shown.{with_held, with_question};
    ghost use Rattle.zt_check_faces.specs.Faces.{if_number};

    ghost changed = { λ c. if_number c.face
        (λ f. with_question c.pendings.now c.id c.interest.now
        (with_held c.id c.interest.now f)) };

    fn change(&self, alloc: Global, face: &mut ShownFace<K>) -> Result<(), Memory> {
        if self.face == face.number() {
            face.hold(alloc, self.id, self.interest)?;
            face.ask(alloc, self.pendings, self.id, self.interest)?;
        }
        Ok(())
    }
}

/// The face holds the interest of an id no more.
#[derive(Drop)]
pub struct DropInterest {
    pub face: u32,
    pub id: u32,
}

impl<K: Key> Change<ShownFace<K>> for DropInterest {
    ghost use Rattle.zt_model.specs.Shown.{without_held};
    ghost use Rattle.zt_check_faces.specs.Faces.{if_number};

    ghost changed = { λ c. if_number c.face (without_held c.id) };

    fn change(&self, _alloc: Global, face: &mut ShownFace<K>) -> Result<(), Memory> {
        if self.face == face.number() {
            face.unhold(self.id);
        }
        Ok(())
    }
}

/// A final with the id 0 is that of the initial interest.
#[derive(Drop)]
pub struct EndInitial {
    pub face: u32,
    pub id: u32,
}

impl<K: Key> Change<ShownFace<K>> for EndInitial {
    ghost use Rattle.zt_model.specs.Shown.{with_initial_final};
    ghost use Rattle.zt_check_faces.specs.Faces.{if_number};

    ghost changed = { λ c. if_number c.face (with_initial_final c.id) };

    fn change(&self, _alloc: Global, face: &mut ShownFace<K>) -> Result<(), Memory> {
        if self.face == face.number() {
            face.end_initial(self.id);
        }
        Ok(())
    }
}

/// What was asked of the face by an id has its final.
#[derive(Drop)]
pub struct EndPending {
    pub face: u32,
    pub id: u32,
}

impl<K: Key> Change<ShownFace<K>> for EndPending {
    ghost use Rattle.zt_model.specs.Shown.{without_pending};
    ghost use Rattle.zt_check_faces.specs.Faces.{if_number};

    ghost changed = { λ c. if_number c.face (without_pending c.id) };

    fn change(&self, _alloc: Global, face: &mut ShownFace<K>) -> Result<(), Memory> {
        if self.face == face.number() {
            face.end_pending(self.id);
        }
        Ok(())
    }
}

/// The pendings of each face go that have waited for the timeout.
#[derive(Drop)]
pub struct ExpirePendings {
    pub now: u64,
    pub timeout: u64,
}

impl<K: Key> Change<ShownFace<K>> for ExpirePendings {
    ghost use Rattle.zt_model.specs.Shown.{without_expired};

    ghost changed = { λ c. without_expired c.now c.timeout };

    fn change(&self, _alloc: Global, face: &mut ShownFace<K>) -> Result<(), Memory> {
        face.expire(self.now, self.timeout);
        Ok(())
    }
}

/// The face's subscribers and queryables are these.
#[derive(Drop)]
pub struct SetEntities<'a, K: Key> {
    pub face: u32,
    pub subscribers: &'a [K],
    pub queryables: &'a [(K, QueryableInfo)],
}

impl<'a, K: Key> Change<ShownFace<K>> for SetEntities<'a, K> {
    ghost use Rattle.zt_check_faces.specs.Faces.{if_number};

    ghost changed = { λ c. if_number c.face (λ f. record f {
      subscribers = c.subscribers.now;
      queryables = c.queryables.now;
    }) };

    fn change(&self, alloc: Global, face: &mut ShownFace<K>) -> Result<(), Memory> {
        if self.face == face.number() {
            face.set_entities(alloc, self.subscribers, self.queryables)?;
        }
        Ok(())
    }
}

/// A message is printed for the face, at a moment.
#[derive(Drop)]
pub struct Hear<'a, K: Key> {
    pub face: u32,
    pub moment: u64,
    pub message: &'a Message<K>,
}

impl<'a, K: Key> Change<ShownFace<K>> for Hear<'a, K> {
    ghost use Rattle.zt_model.specs.Hearing.{heard};
    ghost use Rattle.zt_check_faces.specs.Faces.{if_number};

    ghost changed = { λ c. if_number c.face (heard K.cmp c.moment c.message.now) };

    fn change(&self, alloc: Global, face: &mut ShownFace<K>) -> Result<(), Memory> {
        if self.face == face.number() {
            face.hear(alloc, self.moment, self.message)?;
        }
        Ok(())
    }
}
