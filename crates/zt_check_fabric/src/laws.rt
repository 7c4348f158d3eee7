//! What is true of the fabric that a claimed transcript shows, whatever its lines and entries are.
ghost use Rattle.std.specs.Prelude.{List};
ghost use Rattle.zt_protocol.specs.Plain.{PlainEntry, PlainLine};
ghost use Rattle.zt_protocol.specs.declared.entries.Sent.{Sent};
ghost use Rattle.zt_model.specs.Fabric.{Fabric, empty_fabric};
ghost use Rattle.zt_model.specs.Transcript.{fabric_shown, fabric_with};
ghost use Rattle.zt_check_fabric.specs.Placed.{IsPlaced};

use zt_keys::Key;

/// Each open face has one place at the start, after what a line itself changes, and after what is
/// printed for it was heard.
pub fn faces_have_places<K: Key>()
    ensures empty { IsPlaced {K = K} empty_fabric }
    ensures changed { (line : PlainLine K) (sents : List (Sent K)) (s : Fabric K) → IsPlaced s
        → IsPlaced (fabric_with K.cmp K.matching line sents s) }
    ensures shown { (line : PlainLine K) (entry : PlainEntry K) (s : Fabric K) → IsPlaced s
        → IsPlaced (fabric_shown K.cmp K.matching line entry s) }
{}
