//! Which filters, subregions and positions of a south configuration a peer matches.
ghost use Rattle.std.specs.Prelude.{◌≡◌, map, position, string_bytes};
ghost use Rattle.std.specs.List.{list_any, list_all};
ghost use Rattle.zt_region.specs.Region.{whatami_eq, zid_eq};
ghost use Rattle.zt_region.specs.South.{plain_link, plain_peer, plain_filter, plain_subregion};
ghost use Rattle.zt_region.specs.South.{is_text_listed, has_zid, has_interfaces, has_mode};
ghost use Rattle.zt_region.specs.South.{has_region_name, parts_hold, filter_holds};
ghost use Rattle.zt_region.specs.South.{subregion_matches, first_match};

use crate::region::{Filter, Interfaces, Subregion, TransportPeer, WhatAmI, Zid};

fn is_name_listed(listed: &[String], name: &str) -> bool
    ensures { result ≡ is_text_listed (map string_bytes listed.now) name.now }
{
    listed.iter().any(|text| name == text.as_str())
}

fn is_zid_listed(listed: &[Zid], zid: Zid) -> bool
    ensures { result ≡ list_any (zid_eq zid) listed.now }
{
    listed.iter().any(|one| zid == *one)
}

fn is_mode_listed(listed: &[WhatAmI], mode: WhatAmI) -> bool
    ensures { result ≡ list_any (whatami_eq mode) listed.now }
{
    listed.iter().any(|one| mode == *one)
}

fn are_names_listed(listed: &[String], names: &[String]) -> bool
    ensures { result
        ≡ list_all (is_text_listed (map string_bytes listed.now)) (map string_bytes names.now) }
{
    names
        .iter()
        .all(|name| is_name_listed(listed, name.as_str()))
}

fn are_links_listed(listed: &[String], links: &[Interfaces]) -> bool
    ensures { result
        ≡ list_all (list_all (is_text_listed (map string_bytes listed.now)))
        (map plain_link links.now) }
{
    links
        .iter()
        .all(|link| are_names_listed(listed, &link.names))
}

impl Filter {
    /// Whether every part that is there holds, before negation.
    fn do_parts_hold(&self, peer: &TransportPeer) -> bool
        ensures { result ≡ parts_hold (plain_filter self.now) (plain_peer peer.now) }
    {
        self.zids
            .as_ref()
            .is_none_or(|zids| is_zid_listed(zids, peer.zid))
            && self
                .interfaces
                .as_ref()
                .is_none_or(|names| are_links_listed(names, &peer.links))
            && self
                .modes
                .as_ref()
                .is_none_or(|modes| is_mode_listed(modes, peer.whatami))
            && self
                .region_names
                .as_ref()
                .is_none_or(|names| is_region_name_listed(names, peer))
    }

    pub(crate) fn holds(&self, peer: &TransportPeer) -> bool
        ensures { result ≡ filter_holds (plain_filter self.now) (plain_peer peer.now) }
    {
        self.do_parts_hold(peer) != self.negated
    }
}

fn is_region_name_listed(listed: &[String], peer: &TransportPeer) -> bool
    ensures { result ≡ has_region_name (map string_bytes listed.now) (plain_peer peer.now) }
{
    match &peer.region_name {
        Some(name) => is_name_listed(listed, name.as_str()),
        None => false,
    }
}

fn does_one_hold(filters: &[Filter], peer: &TransportPeer) -> bool
    ensures { result ≡ subregion_matches (Some (map plain_filter filters.now))
        (plain_peer peer.now) }
{
    filters.iter().any(|filter| filter.holds(peer))
}

impl Subregion {
    pub(crate) fn matches(&self, peer: &TransportPeer) -> bool
        ensures { result ≡ subregion_matches (plain_subregion self.now) (plain_peer peer.now) }
    {
        match &self.filters {
            None => true,
            Some(filters) => does_one_hold(filters, peer),
        }
    }
}

pub(crate) fn first_match_of(subregions: &[Subregion], peer: &TransportPeer) -> Option<usize>
    ensures { result ≡ first_match (map plain_subregion subregions.now) (plain_peer peer.now) }
{
    subregions
        .iter()
        .position(|subregion| subregion.matches(peer))
}
