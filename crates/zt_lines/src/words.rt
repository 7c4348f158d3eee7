ghost use Rattle.std.specs.Prelude.{◌≡◌};
ghost use Rattle.zt_lines.specs.Words.{word_of};

/// The word that a line begins with.
#[derive(Clone, Copy, PartialEq, Eq, Debug)]
pub enum Word {
    Gateway,
    Session,
    Face,
    Link,
    Unlink,
    Step,
    Declare,
    Undeclare,
    Interest,
    InterestFinal,
    DeclareFinal,
    Close,
    Moment,
    Trees,
    Entities,
}

// Words of long scripts come first.
#[tactic(auto, unfolding(crate::specs::Words::word_of))]
pub(crate) fn word_of(text: &str) -> Option<Word>
    ensures { result ≡ word_of text.now }
{
    match text {
        "declare" => Some(Word::Declare),
        "undeclare" => Some(Word::Undeclare),
        "step" => Some(Word::Step),
        "interest" => Some(Word::Interest),
        "session" => Some(Word::Session),
        "close" => Some(Word::Close),
        "face" => Some(Word::Face),
        "link" => Some(Word::Link),
        "moment" => Some(Word::Moment),
        "interest-final" => Some(Word::InterestFinal),
        "declare-final" => Some(Word::DeclareFinal),
        "unlink" => Some(Word::Unlink),
        "gateway" => Some(Word::Gateway),
        "trees" => Some(Word::Trees),
        "entities" => Some(Word::Entities),
        _ => None,
    }
}
