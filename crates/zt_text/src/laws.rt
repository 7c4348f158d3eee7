ghost use Rattle.std.specs.Prelude.{◌≡◌, ◌++◌, ◌∷◌, [], ℕ, List, Ok, map};
ghost use Rattle.zt_keys.specs.Key.{OneSpelling};
ghost use Rattle.zt_protocol.specs.declared.entries.Sent.{Sent};
ghost use Rattle.zt_protocol.specs.declared.entries.Report.{Report};
ghost use Rattle.zt_protocol.specs.Plain.{PlainEntry};
ghost use Rattle.zt_text.specs.Sent.{ArePrinted, IsSent, sent_read};
ghost use Rattle.zt_text.specs.Text.{
  NumbersFit,
  entries_text,
  numbered_text,
  report_text,
  sent_text,
  transcript_text,
};

use zt_keys::Key;

/// A message's printed form is read as the message, and where a key has one spelling nothing else
/// is: what `read_sent` gives is then the message of which the line is the printed form.
///
/// So no two messages have one printed form, of those whose options have no bits but the five named
/// ones.
pub fn printing_is_read<K: Key>()
    ensures printed { (bytes : List ℕ) (sent : Sent K) → IsSent sent
        → bytes ++ 10 ∷ [] ≡ sent_text K.printed sent → sent_read K.reading bytes ≡ Ok sent }
    ensures read { OneSpelling K.reading K.printed → (bytes : List ℕ) (sent : Sent K)
        → sent_read K.reading bytes ≡ Ok sent → IsSent sent
        × (bytes ++ 10 ∷ [] ≡ sent_text K.printed sent) }
{}

/// A transcript's text names one transcript: other entries have another text, with the totals
/// behind them or, where a run ended early, without. The numbers of messages are within their
/// types, and their options have no bits but the five named ones.
pub fn texts_tell_transcripts_apart<K: Key>()
    ensures whole { (es fs : List (PlainEntry K)) (one two : Report) → ArePrinted es → ArePrinted fs
        → transcript_text K.printed es one ≡ transcript_text K.printed fs two → es ≡ fs }
    ensures front { (es fs : List (PlainEntry K)) (number : ℕ) → ArePrinted es → ArePrinted fs
        → entries_text K.printed number es ≡ entries_text K.printed number fs → es ≡ fs }
{}

/// The text of entries whose lines were carried out in another order, each with the number of its
/// line, names the entries and their numbers: no others have it, with totals behind them. Numbers
/// of lines are below 2^64.
pub fn numbered_texts_tell_entries_apart<K: Key>()
    ensures { (es fs : List (ℕ × PlainEntry K)) (one two : Report)
        → NumbersFit es → NumbersFit fs
        → ArePrinted (map (λ x. x.1) es) → ArePrinted (map (λ x. x.1) fs)
        → numbered_text K.printed es ++ report_text one
        ≡ numbered_text K.printed fs ++ report_text two → es ≡ fs }
{}
