// What changes at a face without memory: the rows that go.
ghost use Rattle.std.specs.Prelude.{◌≡◌};
ghost use Rattle.zt_model.specs.Closing.{without_asks};
ghost use Rattle.zt_model.specs.Routing.{ended, initial_finalised, unheld};
ghost use Rattle.zt_model.specs.Telling.{unregistered};

use crate::face::FaceState;
use zt_keys::Key;
use zt_protocol::{InterestId, TokenId};

impl<K: Key> FaceState<K> {
    /// The token of the id is undeclared.
    pub fn unregister(&mut self, id: TokenId)
        ensures { self.new ≡ unregistered id self.old }
    {
        self.rows.live.remove(id);
    }

    /// The face holds the interest of the id no more.
    pub fn unhold(&mut self, id: InterestId)
        ensures { self.new ≡ unheld id self.old }
    {
        self.rows.held.remove(id);
    }

    /// The interest that the face was sent under the id is finished.
    pub fn end_pending(&mut self, id: InterestId)
        ensures { self.new ≡ ended id self.old }
    {
        self.rows.pendings.remove(id);
    }

    /// A final with the id 0 finalises the initial interest, where the face has one.
    pub fn finalise_initial(&mut self, id: InterestId)
        ensures { self.new ≡ initial_finalised id self.old }
    {
        if id == 0 && self.rows.initial.is_some() {
            self.rows.initial = Some(true);
        }
    }

    /// The face asks nothing any more.
    pub fn drop_asks(&mut self)
        ensures { self.new ≡ without_asks self.old }
    {
        self.rows.asks.clear();
    }
}
