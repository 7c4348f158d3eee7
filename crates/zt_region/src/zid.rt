// How a node's number is hashed.
ghost use Rattle.std.proofs.Common.{rules};
ghost use Rattle.std.specs.Cmp.Rules.{hashing};
ghost use Rattle.std.specs.Hash as fed;
ghost use Rattle.std.specs.Prelude.{◌≡◌};
ghost use Rattle.zt_region.specs.ZidHash.{zid_hash};

use crate::region::Zid;
use std::hash::{DefaultHasher, Hash, Hasher};

// SipHash: who hands in a table chooses the numbers of its routers, and can't choose many of one
// hash but by trying.
#[tactic(auto, unfolding(crate::specs::ZidHash::zid_hash))]
fn zid_hash(zid: u128) -> u64
    ensures { result ≡ zid_hash zid }
{
    let mut hasher = DefaultHasher::new();
    hasher.write_u128(zid);
    hasher.finish()
}

impl Hash for Zid {
    ghost hash_input = { λ z. fed.u64 (zid_hash z.0) };

    ghost respects_eq = { Prim.search (hashing, rules) };

    fn hash<H: Hasher>(&self, state: &mut H) {
        state.write_u64(zid_hash(self.0));
    }
}
