// A token of a router region.
ghost use Rattle.std.specs.Prelude.{◌≡◌};

use std::alloc::Global;
use std::marker::Model;
use zt_check_faces::Copied;
use zt_keys::{Key, Memory};
use zt_region::{Region, Zid};

/// A token of a router region, under the router that it comes from.
#[derive(Drop)]
pub struct ShownRouted<K: Key> {
    region: Region,
    source: Zid,
    expr: K,
}

impl<K: Key> Model for ShownRouted<K> {
    ghost use Rattle.zt_model.specs.Rows.{RoutedRow};

    ghost Value = { RoutedRow K };

    ghost view = { λ r. record { region = r.region; source = r.source; expr = r.expr } };
}

impl<K: Key> ShownRouted<K> {
    /// A token of these.
    pub(crate) fn new(region: Region, source: Zid, expr: K) -> Self
        ensures { result ≡ record { region = region; source = source; expr = expr } }
    {
        ShownRouted {
            region,
            source,
            expr,
        }
    }

    /// Its region.
    pub fn region(&self) -> Region
        ensures { result ≡ self.now.region }
    {
        self.region
    }

    /// The router that it comes from.
    pub fn source(&self) -> Zid
        ensures { result ≡ self.now.source }
    {
        self.source
    }

    /// Its expression.
    pub fn expr(&self) -> &K
        ensures { result.now ≡ self.now.expr }
    {
        &self.expr
    }
}

impl<K: Key> Copied for ShownRouted<K> {
    fn copied(&self, alloc: Global) -> Result<Self, Memory> {
        Ok(ShownRouted::new(self.region, self.source, self.expr.copy(alloc)?))
    }
}
