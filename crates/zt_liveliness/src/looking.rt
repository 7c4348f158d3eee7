// What sessions and uplinks are given next, which stays.
ghost use Rattle.std.specs.Prelude.{◌≡◌};
ghost use Rattle.std.specs.Option.{option_copied};
ghost use Rattle.zt_liveliness.specs.Lively.{live_in, reply_of, sample_of, sent_of};

use crate::liveliness::Liveliness;
use crate::queues::{oldest_for, oldest_reply};
use zt_keys::Key;
use zt_protocol::Message;
use zt_samples::{Sample, oldest_sample};

impl<K: Key> Liveliness<K> {
    /// The expression of the reply that `reply` would give. None where it would give none, as at the
    /// end of a query. The reply stays, so a caller can make room for it first.
    #[tactic(auto, using(crate::proofs::Walks::live_by))]
    pub fn next_reply(&self, session: u32, get: u32) -> Option<&K>
        ensures { option_copied result ≡ live_in (reply_of session get self.now) }
    {
        if !self.is_asking(session, get) {
            return None;
        }
        oldest_reply(self.mail.waiting.as_slice(), session, get)
    }

    /// The sample that `sample` would give, which stays. None exactly where there is none.
    pub fn next_sample(&self, session: u32, subscriber: u32) -> Option<&Sample<K>>
        ensures { option_copied result ≡ sample_of session subscriber self.now }
    {
        oldest_sample(self.mail.news.as_slice(), session, subscriber)
    }

    /// The message that `send` would give, which stays. None exactly where there is none, or where
    /// the number is no open uplink's.
    pub fn next_sent(&self, uplink: u32) -> Option<&Message<K>>
        ensures { option_copied result ≡ sent_of uplink self.now }
    {
        if !self.is_uplink(uplink) {
            return None;
        }
        oldest_for(self.mail.waiting.as_slice(), uplink)
    }
}
