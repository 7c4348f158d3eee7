// The settings of a gateway, from which it is made.
ghost use Rattle.std.specs.Prelude.{◌≡◌, [], None, Some, IfErr, IfOk, OnOk, false};
ghost use Rattle.std.specs.Prelude.{option_map, string_bytes};
ghost use Rattle.zt_gateway.specs.Settings.{line_of, new_gateway};
ghost use Rattle.zt_model.specs.Fabric.{line_causes, empty_fabric};
ghost use Rattle.zt_model.specs.Refusals.{first_cause};
ghost use Rattle.zt_region.specs.South.{plain_south};

use crate::gateway::Gateway;
use std::alloc::Global;
use std::marker::Model;
use zt_keys::Key;
use zt_protocol::CallError;
use zt_refusals::cause_of_making;
use zt_region::{Admission, Region, SouthConf, WhatAmI, Zid};
use zt_rollback::RestorableState;
use zt_state::GatewayState;

/// The settings of a gateway that is to be made. Those that aren't set are: no south regions, no
/// south configuration, no name, the timeout 10000, and no pair of regions refused.
#[derive(Drop)]
pub struct GatewayBuilder {
    alloc: Global,
    mode: WhatAmI,
    zid: Zid,
    regions: Vec<Region>,
    south: SouthConf,
    name: Option<String>,
    timeout: u64,
    admission: Admission,
}

impl Model for GatewayBuilder {
    ghost use Rattle.std.specs.Prelude.{option_map, string_bytes};
    ghost use Rattle.zt_gateway.specs.Settings.{Settings};
    ghost use Rattle.zt_region.specs.South.{plain_south};

    ghost Value = { Settings };

    ghost view = { λ b. record {
      mode = b.mode;
      zid = b.zid;
      regions = b.regions.items;
      south = plain_south b.south;
      name = option_map string_bytes b.name;
      timeout = b.timeout;
      refused = b.admission.refused.items;
    } };
}

impl GatewayBuilder {
    /// The settings of a gateway of this mode and number.
    pub fn new(alloc: Global, mode: WhatAmI, zid: Zid) -> Self
        ensures { result
            ≡ record {
              mode = mode;
              zid = zid;
              regions = [];
              south = plain_south SouthConf.Auto;
              name = None;
              timeout = 10000;
              refused = [];
            } }
    {
        GatewayBuilder {
            alloc,
            mode,
            zid,
            regions: Vec::new(alloc),
            south: SouthConf::Auto,
            name: None,
            timeout: 10000,
            admission: Admission {
                refused: Vec::new(alloc),
            },
        }
    }

    /// Sets the south regions, beside the region Local.
    pub fn subregions(mut self, regions: Vec<Region>) -> Self
        ensures { result ≡ record self { regions = regions.items } }
    {
        self.regions = regions;
        self
    }

    /// Sets the south configuration, by which the region of a link's face is found before it is
    /// opened.
    pub fn south(mut self, conf: SouthConf) -> Self
        ensures { result ≡ record self { south = plain_south conf } }
    {
        self.south = conf;
        self
    }

    /// Sets the gateway's name, by which others find the region of a link's face.
    pub fn name(mut self, name: Option<String>) -> Self
        ensures { result ≡ record self { name = option_map string_bytes name } }
    {
        self.name = name;
        self
    }

    /// Sets how long an interest that was sent upstream may wait for its final.
    pub fn timeout(mut self, timeout: u64) -> Self
        ensures { result ≡ record self { timeout = timeout } }
    {
        self.timeout = timeout;
        self
    }

    /// Sets which regions' tokens others aren't told.
    pub fn admission(mut self, admission: Admission) -> Self
        ensures { result ≡ record self { refused = admission.refused.items } }
    {
        self.admission = admission;
        self
    }

    /// Makes a gateway without faces, as the first line of a script makes it. Refused are a pair of
    /// regions that names one that the gateway doesn't have, and a south region that goes by trees
    /// where the gateway's north doesn't: one of routers, at a gateway that is no router. The south
    /// configuration and the name are for those who find regions: the gateway keeps neither.
    pub fn build<K: Key>(self) -> Result<Gateway<K>, CallError>
        ensures refused { IfErr result (λ error.
            option_map CallError.Refused
            (first_cause (line_causes K.cmp K.matching false (line_of self) empty_fabric))
            ≡ Some error) }
        ensures accepted { OnOk result
            (first_cause (line_causes K.cmp K.matching false (line_of self) empty_fabric) ≡ None) }
        ensures made { IfOk result (λ gateway. gateway ≡ new_gateway self) }
    {
        match cause_of_making(
            self.mode,
            self.regions.as_slice(),
            self.admission.refused.as_slice(),
        ) {
            Some(refusal) => Err(CallError::Refused(refusal)),
            None => Ok(Gateway {
                alloc: self.alloc,
                kept: RestorableState::new(
                    self.alloc,
                    GatewayState::new(
                        self.alloc,
                        self.mode,
                        self.zid,
                        self.regions,
                        self.timeout,
                        self.admission,
                    ),
                ),
                outbox: Vec::new(self.alloc),
            }),
        }
    }
}
