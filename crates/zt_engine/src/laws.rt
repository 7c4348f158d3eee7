//! What holds of every message.
ghost use Rattle.std.specs.Prelude.{◌≡◌, ◌⊎◌, ℕ, Some};
ghost use Rattle.zt_engine.specs.Answers.{Answers, Receives};
ghost use Rattle.zt_engine.specs.Given.{sent_text};
ghost use Rattle.zt_engine.specs.Messages.{FitsItsBytes, fields_of, message_in};
ghost use Rattle.zt_keys.specs.Expression.{Expression};
ghost use Rattle.zt_liveliness.specs.Lively.{Lively, Receive};
ghost use Rattle.zt_protocol.specs.declared.messages.Message.{Message};

use zt_keys::{Key, KeyExpr};

/// Two messages with the same numbers and the same bytes of a key are one. The numbers and the
/// bytes that `take_sent` gives of a message are read as that message, and `receive` carries out
/// no other with them: else memory ran out, and nothing changed.
pub fn messages_are_read_back()
    ensures same { (a b : Message Expression) → fields_of a ≡ fields_of b
        → sent_text a ≡ sent_text b → a ≡ b }
    ensures read { (message : Message Expression) → FitsItsBytes message
        → message_in ⟦<KeyExpr as Key>⟧.reading (fields_of message) (sent_text message)
        ≡ Some message }
    ensures received { (message : Message Expression) (uplink status : ℕ)
        (before after : Lively Expression) → FitsItsBytes message
        → Receives ⟦<KeyExpr as Ord>⟧.cmp ⟦<KeyExpr as Key>⟧.matching ⟦<KeyExpr as Key>⟧.reading
        uplink (fields_of message) (sent_text message) before after status
        → Answers ⟦<KeyExpr as Ord>⟧.cmp ⟦<KeyExpr as Key>⟧.matching (Receive uplink message)
        before after status ⊎ ((status ≡ 5) × (after ≡ before)) }
{}
