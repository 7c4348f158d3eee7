// How interests and pendings end.
ghost use Rattle.std.specs.Prelude.{◌≡◌, ◌∷◌, if◌then◌else◌, [], true, OnOk, Some};
ghost use Rattle.zt_calls.specs.Does.{Does};
ghost use Rattle.zt_model.specs.Parts.{Alter, Say, to_face, with_face};
ghost use Rattle.zt_model.specs.Routing.{ending, finalising, initial_finalised, untell_to};

use crate::speech::{Speech, say};
use std::alloc::Global;
use zt_interests::{end_upstream, final_of_both, finish, untell};
use zt_keys::{Key, Memory};
use zt_protocol::InterestId;
use zt_state::{GatewayState, RemoteInterest};

// Whether nothing is said to the face.
fn is_spared<K>(speech: &Speech<K>, face: u32) -> bool
    ensures { result ≡ true → speech.now.spared ≡ Some face }
{
    match speech.spared {
        Some(spared) => spared == face,
        None => false,
    }
}

// A face is told that what it doesn't want any more is gone. It isn't looked for where the face is
// spared.
fn say_untold<K: Key>(
    alloc: Global,
    g: &mut GatewayState<K>,
    speech: &mut Speech<K>,
    face: u32,
) -> Result<(), Memory>
    ensures { OnOk result (Does K.cmp K.matching
        (Say (λ h. to_face face (untell_to K.cmp K.matching h) h) ∷ [])
        g.old g.new speech.old speech.new) }
{
    if is_spared(speech, face) {
        return Ok(());
    }
    let gone = untell(alloc, g, face)?;
    say(alloc, g, speech, gone)
}

/// A held interest is finalised.
pub(crate) fn finalise<K: Key>(
    alloc: Global,
    g: &mut GatewayState<K>,
    speech: &mut Speech<K>,
    face: u32,
    id: InterestId,
    interest: &RemoteInterest<K>,
) -> Result<(), Memory>
    ensures { OnOk result (Does K.cmp K.matching (finalising K.cmp K.matching face id interest.now)
        g.old g.new speech.old speech.new) }
{
    g.unhold(face, id);
    say_untold(alloc, g, speech, face)?;
    let finals = final_of_both(alloc, g, face, id, interest)?;
    say(alloc, g, speech, finals)?;
    let ends = end_upstream(alloc, g, interest)?;
    say(alloc, g, speech, ends)
}

/// A pending of a face ends, and with the last one the ask that it serves.
pub(crate) fn end_pending<K: Key>(
    alloc: Global,
    g: &mut GatewayState<K>,
    speech: &mut Speech<K>,
    face: u32,
    id: InterestId,
) -> Result<(), Memory>
    ensures { OnOk result (Does K.cmp K.matching (ending face id)
        g.old g.new speech.old speech.new) }
{
    g.end_pending(face, id);
    let finals = finish(alloc, g, face, id)?;
    say(alloc, g, speech, finals)
}

/// A final from a north face. It ends the interest that waits under the id, if there is one.
pub(crate) fn declare_final<K: Key>(
    alloc: Global,
    g: &mut GatewayState<K>,
    speech: &mut Speech<K>,
    face: u32,
    id: InterestId,
    is_pending: bool,
) -> Result<(), Memory>
    ensures { OnOk result (Does K.cmp K.matching
        (Alter (with_face face (initial_finalised id))
        ∷ (if is_pending then ending face id else []))
        g.old g.new speech.old speech.new) }
{
    g.finalise_initial(face, id);
    if is_pending {
        end_pending(alloc, g, speech, face, id)
    } else {
        Ok(())
    }
}
