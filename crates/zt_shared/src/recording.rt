// A gateway with its journal is a value that many threads can share.
ghost use Rattle.std.specs.Prelude.{◌≡◌};
ghost use Rattle.zt_gateway.specs.Running.{Running};
ghost use Rattle.zt_laws.specs.Sound.{CallHasFirstIds};
ghost use Rattle.zt_model.specs.Journal.{IsReplay, Journalled};
ghost use Rattle.zt_protocol.specs.Plain.{plain_call};
ghost use Rattle.zt_shared.specs.Recorded.{journalled};
ghost use Rattle.zt_shared.specs.Sharing.{Tells};

use crate::entries::{JournalEntry, Receipt};
use crate::journaled::Journaled;
use std::alloc::{AllocError, Global};
use zt_keys::Key;
use zt_protocol::Call;
use zt_shared_value::Recorder;

impl<K: Key> Recorder for Journaled<K> {
    type Call = Call<K>;

    type Receipt = Receipt;

    type Entry = JournalEntry<K>;

    ghost Entered = { Journalled K };

    ghost State = { Running K };

    ghost state = { λ j. j.opening };

    ghost journal = { λ j. j.entries };

    ghost author = { λ entry. entry.pass };

    ghost is_valid = { λ call. CallHasFirstIds (plain_call call) };

    ghost is_entry_of = { λ call entry. entry.call ≡ plain_call call };

    ghost tells = { λ place entry receipt. Tells place entry receipt };

    ghost is_replay = { λ opening log. IsReplay K.cmp K.matching log opening.rows };

    ghost shows = { λ entry copy. journalled copy ≡ entry };

    fn enter(&mut self, pass: u32, call: Call<K>) -> Result<Receipt, AllocError> {
        match Journaled::enter(self, pass, call) {
            Ok(receipt) => Ok(receipt),
            Err(_) => Err(AllocError),
        }
    }

    fn entry(&self, alloc: Global, place: u64) -> Result<Option<JournalEntry<K>>, AllocError> {
        match Journaled::entry(self, alloc, place) {
            Ok(found) => Ok(found),
            Err(_) => Err(AllocError),
        }
    }
}
