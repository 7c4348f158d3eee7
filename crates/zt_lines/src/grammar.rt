ghost use Rattle.std.specs.Prelude.{◌≡◌, ◌≢◌, ◌↔◌, ℕ, List, Ok, Err};
ghost use Rattle.std.specs.Str.{IsUtf8};
ghost use Rattle.zt_protocol.specs.declared.errors.LineError.TheVariants as errors;
ghost use Rattle.zt_protocol.specs.Plain.{PlainLine};
ghost use Rattle.zt_fields.specs.Fields.{fields_of};
ghost use Rattle.zt_lines.specs.Reading.{line_read};
ghost use Rattle.zt_lines.specs.Grammar.{IsLine};

use zt_keys::Key;

/// What `read_line` gives is what the grammar says of a line's fields.
pub fn grammar_is_read<K: Key>()
    ensures read { (bytes : List ℕ) (line : PlainLine K) → (line_read K.reading bytes ≡ Ok line)
        ↔ (IsUtf8 bytes × IsLine K.reading (fields_of bytes) line) }
    ensures not_utf8 { (bytes : List ℕ) → (line_read K.reading bytes ≡ Err errors.NotUtf8)
        ↔ (IsUtf8 bytes → ⊥) }
    ensures not_in_grammar { (bytes : List ℕ)
        → (line_read K.reading bytes ≡ Err errors.NotInGrammar)
        ↔ (IsUtf8 bytes × ((line : PlainLine K) → IsLine K.reading (fields_of bytes) line → ⊥)) }
    ensures memory { (bytes : List ℕ) → line_read K.reading bytes ≢ Err errors.Memory }
{}
