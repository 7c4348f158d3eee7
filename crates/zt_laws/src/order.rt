//! Lists in order and without doubles, under every call and every line.

ghost use Rattle.std.specs.Prelude.{◌≡◌, Bool};
ghost use Rattle.zt_protocol.specs.Plain.{PlainCall, PlainLine};
ghost use Rattle.zt_model.specs.Fabric.{Fabric, empty_fabric, entry_of, fabric_after};
ghost use Rattle.zt_model.specs.Journal.{rows_after};
ghost use Rattle.zt_model.specs.Rows.{Rows};
ghost use Rattle.zt_laws.specs.Order.{FabricIsInOrder, RowsAreInOrder};
ghost use Rattle.zt_laws.specs.Sound.{CallHasFirstIds, HasFirstIds, rows_after_call};

use zt_keys::Key;

/// Order and no doubles under every call, whether or not a cause applies to it: the rows of a
/// gateway are in order after it, if they were before. An accepted call leaves `rows_after_call`;
/// `rows_after` is what a call leaves, be it accepted or refused.
pub fn calls_keep_order<K: Key>()
    ensures accepted { (c : PlainCall K) (g : Rows K) → CallHasFirstIds c
        → RowsAreInOrder K.cmp K.matching g
        → RowsAreInOrder K.cmp K.matching (rows_after_call K.cmp K.matching c g) }
    ensures any { (c : PlainCall K) (g : Rows K) → CallHasFirstIds c
        → RowsAreInOrder K.cmp K.matching g
        → RowsAreInOrder K.cmp K.matching (rows_after K.cmp K.matching c g) }
{}

/// The same of fabrics: the empty fabric is in order, and so is a fabric after each line, accepted
/// or refused. Each face has a number in scripts, and these rise as those at each gateway do.
pub fn lines_keep_order<K: Key>()
    ensures start { FabricIsInOrder K.cmp K.matching empty_fabric }
    ensures step { (line : PlainLine K) (s : Fabric K) → HasFirstIds line
        → FabricIsInOrder K.cmp K.matching s
        → FabricIsInOrder K.cmp K.matching
        (fabric_after K.cmp K.matching line (entry_of K.cmp K.matching line s) s) }
{}
