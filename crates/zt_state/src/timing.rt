// What has waited for the timeout.
ghost use Rattle.std.specs.Prelude.{◌≡◌, IfOk};
ghost use Rattle.zt_faces.specs.Timed.{expired_among};

use crate::gateway::GatewayState;
use std::alloc::Global;
use zt_keys::{Key, Memory};

impl<K: Key> GatewayState<K> {
    /// The pendings that at this moment have waited for the timeout, by face and id. Beside these,
    /// only interests are passed that were sent so long ago and wait no more, each once or twice.
    pub fn expired(&mut self, alloc: Global, now: u64) -> Result<Vec<(u32, u32)>, Memory>
        ensures expired { IfOk result (λ expired. expired.items
            ≡ expired_among now self.old.timeout self.old.faces) }
        ensures kept { self.new ≡ self.old }
    {
        self.faces.expired(alloc, now, self.timeout)
    }
}
