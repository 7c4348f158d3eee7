// Tokens on their way along the trees.
ghost use Rattle.std.specs.Prelude.{◌≡◌, ◌++◌, [], IfOk, OnOk, map};
ghost use Rattle.zt_model.specs.Trees.{is_face_of_router, pass_on, unpass};
ghost use Rattle.zt_routers.specs.Branches.{IsBranchOf, IsOwnBranch};
ghost use Rattle.zt_routers.specs.Branches.{is_reached, passed, unpassed};

use crate::reaching::say_to_children;
use crate::tables::table_in;
use std::alloc::Global;
use zt_keys::{Key, Memory};
use zt_link_state::is_child_among;
use zt_protocol::Message;
use zt_region::{NodeId, Region, Zid};
use zt_state::{FaceState, GatewayState};
use zt_tokens::FaceRule;

// Whether the face stands for its router.
pub(crate) fn is_face_of_router<K: Key>(g: &GatewayState<K>, f: &FaceState<K>) -> bool
    ensures { result ≡ is_face_of_router g.now f.now }
{
    match g.find_face_of(f.region(), f.zid()) {
        None => false,
        Some(first) => first.number() == f.number(),
    }
}

/// Where the tokens of a source go on to in a region: the entries of its children, and the
/// gateway's own number for it. It is looked up once, and tried at each face.
#[derive(Drop)]
pub(crate) struct Branch<'a> {
    pub(crate) region: Region,
    children: &'a [(Zid, Zid)],
    node_id: NodeId,
}

// A branch that goes on to nobody.
fn bare_branch<'a>(region: Region) -> Branch<'a>
    ensures region { result.region ≡ region }
    ensures bare { result.children.now ≡ [] }
    ensures number { result.node_id ≡ 0 }
{
    Branch {
        region,
        children: &[],
        node_id: 0,
    }
}

/// The branch of a source in a region, by the region's table.
pub(crate) fn branch_of<K: Key>(g: &GatewayState<K>, region: Region, source: Zid) -> Branch<'_>
    ensures region { result.region ≡ region }
    ensures branch { IsBranchOf g.now result.region source result.children.now result.node_id }
{
    match table_in(g, region) {
        None => bare_branch(region),
        Some(table) => Branch {
            region,
            children: table.children_of(source),
            node_id: table.node_of(source),
        },
    }
}

/// The branch of the gateway's own tokens in a region where something goes on; elsewhere one that
/// goes on to nobody.
pub(crate) fn own_branch<K: Key>(g: &GatewayState<K>, region: Region, goes_on: bool) -> Branch<'_>
    ensures region { result.region ≡ region }
    ensures branch { IsOwnBranch g.now result.region goes_on result.children.now result.node_id }
{
    if goes_on {
        branch_of(g, region, g.zid())
    } else {
        bare_branch(region)
    }
}

// Whether tokens go on to the face.
fn is_reached<K: Key>(g: &GatewayState<K>, branch: &Branch<'_>, f: &FaceState<K>) -> bool
    ensures { result ≡ is_reached g.now branch.now.region branch.now.children.now f.now }
{
    f.region() == branch.region
        && is_child_among(f.zid(), branch.children)
        && is_face_of_router(g, f)
}

// Adds what a face is told of a token that goes on.
pub(crate) fn pass_to<K: Key>(
    alloc: Global,
    g: &GatewayState<K>,
    branch: &Branch<'_>,
    expr: &K,
    f: &FaceState<K>,
    sends: &mut Vec<(u32, Message<K>)>,
) -> Result<(), Memory>
    ensures { OnOk result (sends.new.items ≡ sends.old.items ++ map (λ m. (f.now.number, m))
        (passed g.now branch.now.region branch.now.children.now branch.now.node_id expr.now
        f.now)) }
{
    if is_reached(g, branch, f) {
        let message = Message::DeclareToken {
            id: 0,
            expr: expr.copy(alloc)?,
            interest_id: None,
            node_id: branch.node_id,
        };
        sends.push((f.number(), message))?;
    }
    Ok(())
}

// Adds what a face is told where a token that went on is gone.
pub(crate) fn unpass_to<K: Key>(
    alloc: Global,
    g: &GatewayState<K>,
    branch: &Branch<'_>,
    expr: &K,
    f: &FaceState<K>,
    sends: &mut Vec<(u32, Message<K>)>,
) -> Result<(), Memory>
    ensures { OnOk result (sends.new.items ≡ sends.old.items ++ map (λ m. (f.now.number, m))
        (unpassed g.now branch.now.region branch.now.children.now branch.now.node_id expr.now
        f.now)) }
{
    if is_reached(g, branch, f) {
        let message = Message::UndeclareToken {
            id: 0,
            expr: Some(expr.copy(alloc)?),
            node_id: branch.node_id,
        };
        sends.push((f.number(), message))?;
    }
    Ok(())
}

// A token of a source goes on along a branch.
#[derive(Drop)]
struct Passes<'a, K: Key> {
    branch: Branch<'a>,
    expr: &'a K,
}

impl<'a, K: Key> FaceRule<K> for Passes<'a, K> {
    ghost use Rattle.zt_routers.specs.Branches.{passed};

    ghost given = { λ p g.
        passed g p.branch.region p.branch.children.now p.branch.node_id p.expr.now };

    fn say(
        &self,
        alloc: Global,
        g: &GatewayState<K>,
        f: &FaceState<K>,
        sends: &mut Vec<(u32, Message<K>)>,
    ) -> Result<(), Memory> {
        pass_to(alloc, g, &self.branch, self.expr, f, sends)
    }
}

// A token of a source that is gone went on along a branch.
#[derive(Drop)]
struct Unpasses<'a, K: Key> {
    branch: Branch<'a>,
    expr: &'a K,
}

impl<'a, K: Key> FaceRule<K> for Unpasses<'a, K> {
    ghost use Rattle.zt_routers.specs.Branches.{unpassed};

    ghost given = { λ p g.
        unpassed g p.branch.region p.branch.children.now p.branch.node_id p.expr.now };

    fn say(
        &self,
        alloc: Global,
        g: &GatewayState<K>,
        f: &FaceState<K>,
        sends: &mut Vec<(u32, Message<K>)>,
    ) -> Result<(), Memory> {
        unpass_to(alloc, g, &self.branch, self.expr, f, sends)
    }
}

/// A token of a source goes on to its children.
pub fn pass_on<K: Key>(
    alloc: Global,
    g: &GatewayState<K>,
    region: Region,
    source: Zid,
    expr: &K,
) -> Result<Vec<(u32, Message<K>)>, Memory>
    ensures { IfOk result (λ sends. sends.items ≡ pass_on K.cmp region source expr.now g.now) }
{
    let branch = branch_of(g, region, source);
    let children = branch.children;
    say_to_children(alloc, g, region, children, &Passes { branch, expr })
}

/// That a token of a source is gone goes on to its children.
pub fn unpass<K: Key>(
    alloc: Global,
    g: &GatewayState<K>,
    region: Region,
    source: Zid,
    expr: &K,
) -> Result<Vec<(u32, Message<K>)>, Memory>
    ensures { IfOk result (λ sends. sends.items ≡ unpass K.cmp region source expr.now g.now) }
{
    let branch = branch_of(g, region, source);
    let children = branch.children;
    say_to_children(alloc, g, region, children, &Unpasses { branch, expr })
}
