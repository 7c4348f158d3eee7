// Which tokens a face may see, which it asked for, and which it was told.
ghost use Rattle.std.specs.Prelude.{◌≡◌};
ghost use Rattle.std.specs.Option.{option_copied};
ghost use Rattle.zt_model.specs.Parts.{find_face, is_routed};
ghost use Rattle.zt_hats.specs.Rules.{strategy};
ghost use Rattle.zt_model.specs.Strategy.{strategy_of};
ghost use Rattle.zt_model.specs.Visible.{is_visible, shows};
ghost use Rattle.zt_model.specs.Wants.{seeks, wants};
ghost use Rattle.zt_tokens.specs.Seeking.{is_seeker_told, is_told_by};

use zt_hats::{Hat, hat_of};
use zt_indexes::RegionTest;
use zt_keys::Key;
use zt_protocol::TokenId;
use zt_region::{Region, WhatAmI};
use zt_state::{FaceState, GatewayState};

/// The open face with this number.
pub fn find_face<K: Key>(g: &GatewayState<K>, number: u32) -> Option<&FaceState<K>>
    ensures { option_copied result ≡ find_face number g.now }
{
    g.find_face(number)
}

/// Whether the face holds an interest in the expression's tokens.
#[tactic(auto, unfolding(zt_model::specs::Wants::wants))]
pub fn wants<K: Key>(f: &FaceState<K>, expr: &K) -> bool
    ensures { result ≡ wants K.matching f.now expr.now }
{
    f.held()
        .iter()
        .any(|(_, interest)| interest.asks_token(expr))
}

/// The hat of the face's region.
pub fn hat_of_face<K: Key>(g: &GatewayState<K>, f: &FaceState<K>) -> Hat
    ensures { strategy result ≡ strategy_of g.now.mode f.now.region }
{
    hat_of(g.mode(), f.region())
}

/// Whether a face of a gateway of this mode may be told of the expression.
#[tactic(auto, unfolding(zt_model::specs::Wants::seeks))]
pub fn seeks<K: Key>(mode: WhatAmI, f: &FaceState<K>, expr: &K) -> bool
    ensures { result ≡ seeks K.matching mode f.now expr.now }
{
    hat_of(mode, f.region()).is_told_unasked(f.region()) || wants(f, expr)
}

/// Whether faces of the region `own` of a gateway of this mode are shown tokens of the region
/// `source`.
pub fn shows(mode: WhatAmI, own: Region, source: Region) -> bool
    ensures { result ≡ shows mode own source }
{
    hat_of(mode, own).shares_tokens() || source != own
}

/// Whether the face hears of tokens by trees.
pub fn is_routed<K: Key>(g: &GatewayState<K>, f: &FaceState<K>) -> bool
    ensures { result ≡ is_routed g.now f.now }
{
    hat_of_face(g, f).goes_by_trees()
}

/// Whether a face that seeks an expression is told of a token of it that was declared in the region
/// `source`. The face was told the expression under the id `known`, or not at all.
pub fn is_seeker_told<K: Key>(
    g: &GatewayState<K>,
    source: Region,
    f: &FaceState<K>,
    known: Option<TokenId>,
) -> bool
    ensures { result ≡ is_seeker_told g.now source f.now known }
{
    !is_routed(g, f)
        && g.admits(source, f.region())
        && shows(g.mode(), f.region(), source)
        && known.is_none()
}

/// Whether the face is told of a token of the expression that was declared in the region `source`.
/// It was told the expression under the id `known`, or not at all.
pub fn is_told<K: Key>(
    g: &GatewayState<K>,
    source: Region,
    expr: &K,
    f: &FaceState<K>,
    known: Option<TokenId>,
) -> bool
    ensures { result ≡ is_told_by K.matching g.now source expr.now f.now known }
{
    is_seeker_told(g, source, f, known) && seeks(g.mode(), f, expr)
}

/// The regions whose tokens are shown to the faces of the region `own`, in a gateway of this mode.
#[derive(Drop)]
pub struct ShownTo {
    pub mode: WhatAmI,
    pub own: Region,
}

impl RegionTest for ShownTo {
    ghost use Rattle.zt_model.specs.Visible.{shows};

    ghost passes = { λ t. shows t.mode t.own };

    fn passes(&self, region: Region) -> bool {
        shows(self.mode, self.own, region)
    }
}

/// Whether some live token of the expression is shown to faces of the region `own`. A look-up.
pub fn is_visible<K: Key>(g: &GatewayState<K>, own: Region, expr: &K) -> bool
    ensures { result ≡ is_visible K.cmp g.now own expr.now }
{
    let mode = g.mode();
    g.live().is_shown(expr, &ShownTo { mode, own })
}
