// Rows of a face by their ids.
ghost use Rattle.std.specs.Prelude.{◌≡◌};
ghost use Rattle.std.specs.Option.{option_copied};
ghost use Rattle.zt_model.specs.Lists.{at_id, has_id};

use crate::by_id::{at_id, has_id};
use zt_check_faces::{ShownFace, ShownPending};
use zt_keys::Key;

/// Whether the face declares a token under the id. A look-up.
pub(crate) fn has_live<K: Key>(face: &ShownFace<K>, id: u32) -> bool
    ensures { result ≡ has_id id face.now.live }
{
    has_id(face.live_of(id), id)
}

/// The token that the face declares under the id. A look-up.
pub(crate) fn live_at<K: Key>(face: &ShownFace<K>, id: u32) -> Option<&K>
    ensures { option_copied result ≡ at_id id face.now.live }
{
    at_id(face.live_of(id), id)
}

/// Whether the face holds an interest of the id. A look-up.
pub(crate) fn has_held<K: Key>(face: &ShownFace<K>, id: u32) -> bool
    ensures { result ≡ has_id id face.now.held }
{
    has_id(face.held_of(id), id)
}

/// Whether the face asks by the id. A look-up.
pub(crate) fn has_ask<K: Key>(face: &ShownFace<K>, id: u32) -> bool
    ensures { result ≡ has_id id face.now.asks }
{
    has_id(face.asks_of(id), id)
}

/// Whether an unfinished interest of the id was sent to the face. A look-up.
pub(crate) fn has_pending<K: Key>(face: &ShownFace<K>, id: u32) -> bool
    ensures { result ≡ has_id id face.now.pendings }
{
    has_id(face.pendings_of(id), id)
}

/// The unfinished interest of the id that was sent to the face. A look-up.
pub(crate) fn pending_at<K: Key>(face: &ShownFace<K>, id: u32) -> Option<&ShownPending>
    ensures { option_copied result ≡ at_id id face.now.pendings }
{
    at_id(face.pendings_of(id), id)
}
