ghost use Rattle.std.specs.Prelude.{◌≡◌, codes};
ghost use Rattle.zt_protocol.specs.Refusal.{number_of, name_of};

use thiserror::Error;

/// Why a line or a call is refused. A refused call changes nothing.
///
/// The causes are tried in the order of their numbers, and the first that holds is the answer.
#[derive(Clone, Copy, PartialEq, Eq, Debug)]
pub enum Refusal {
    /// The named gateway doesn't exist.
    UnknownGateway = 1,
    /// The link doesn't exist or is closed.
    UnknownLink,
    /// No message waits in that direction of the link.
    EmptyLink,
    /// The named face doesn't exist or is closed.
    UnknownFace,
    /// The face ends a link, so the link alone speaks for it and closes it.
    LinkedFace,
    /// The region isn't one of the gateway.
    NoSuchRegion,
    /// The two ends of a link don't agree on their regions, or the face doesn't fit its region.
    RegionConflict,
    /// A client gateway has one face to the north.
    NorthTaken,
    /// The link would close a loop of client gateways.
    WouldLoop,
    /// Only a gateway to the north answers an interest.
    AnswerFromSouth,
    /// Only a gateway to the north finishes an ask.
    FinalFromSouth,
    /// A router declares no interests.
    InterestFromRouter,
    /// Of the faces to the north a peer alone, at a peer gateway, may declare interests.
    InterestFromNorth,
    /// A current interest asks for tokens, and for no subscribers or queryables.
    IllegalCurrent,
    /// An interest of the face has this id still. Zenoh logs such a one and takes it in part.
    InterestIdInUse,
    /// The face doesn't hold an interest with this id. Zenoh logs that it is unknown.
    UnknownInterest,
    /// The interest id names no interest that was sent to this face.
    UnknownAsk,
    /// The node id names no router in the face's link table, or names the gateway itself.
    UnknownRouter,
    /// Ids of tokens begin at 1.
    TokenIdZero,
    /// The id is that of a live token of the face with another expression.
    TokenIdInUse,
    /// The id is that of no live token of the face, and no expression is given.
    UnknownToken,
    /// The moment lies before the gateway's last one.
    MomentBack,
    /// The gateway's dictionary would hold more than 65,535 expressions.
    DictionaryFull,
    /// A face has too few ids left for what the call would send it.
    IdsSpent,
    /// All numbers of gateways, links or faces are given out.
    NumbersSpent,
}

impl Refusal {
    /// Its place in the order in which causes are tried, from 1.
    pub fn number(&self) -> u8
        ensures { result ≡ number_of self.now }
    {
        *self as u8
    }

    /// Its name, as a transcript prints it.
    pub fn name(&self) -> &'static str
        ensures { result.now ≡ name_of self.now }
    {
        match self {
            Refusal::UnknownGateway => "UnknownGateway",
            Refusal::UnknownLink => "UnknownLink",
            Refusal::EmptyLink => "EmptyLink",
            Refusal::UnknownFace => "UnknownFace",
            Refusal::LinkedFace => "LinkedFace",
            Refusal::NoSuchRegion => "NoSuchRegion",
            Refusal::RegionConflict => "RegionConflict",
            Refusal::NorthTaken => "NorthTaken",
            Refusal::WouldLoop => "WouldLoop",
            Refusal::AnswerFromSouth => "AnswerFromSouth",
            Refusal::FinalFromSouth => "FinalFromSouth",
            Refusal::InterestFromRouter => "InterestFromRouter",
            Refusal::InterestFromNorth => "InterestFromNorth",
            Refusal::IllegalCurrent => "IllegalCurrent",
            Refusal::InterestIdInUse => "InterestIdInUse",
            Refusal::UnknownInterest => "UnknownInterest",
            Refusal::UnknownAsk => "UnknownAsk",
            Refusal::UnknownRouter => "UnknownRouter",
            Refusal::TokenIdZero => "TokenIdZero",
            Refusal::TokenIdInUse => "TokenIdInUse",
            Refusal::UnknownToken => "UnknownToken",
            Refusal::MomentBack => "MomentBack",
            Refusal::DictionaryFull => "DictionaryFull",
            Refusal::IdsSpent => "IdsSpent",
            Refusal::NumbersSpent => "NumbersSpent",
        }
    }
}

/// Why a call on a gateway didn't happen.
#[derive(Clone, Copy, PartialEq, Eq, Debug)]
pub enum CallError {
    /// The call is refused, and changed nothing.
    Refused(Refusal),
    /// Memory ran out, and nothing changed.
    Memory,
}

/// Why a line of a script couldn't be read. The first two have the numbers 1 and 2.
#[derive(Clone, Copy, PartialEq, Eq, Debug)]
pub enum LineError {
    /// The bytes aren't UTF-8.
    NotUtf8,
    /// They are, and no line of the grammar.
    NotInGrammar,
    /// Memory ran out.
    Memory,
}

/// Why a script wasn't carried out to its end.
#[derive(PartialEq, Eq, Debug, Drop, Error)]
pub enum RunError {
    /// The line of this number, from 1, is no line of the grammar.
    #[error("bad line {0}")]
    BadLine(u64),
    /// The script has more than 1,048,576 bytes.
    #[error("too long")]
    TooLong,
    /// The source failed.
    #[error("read fault")]
    ReadFault,
    /// The sink failed.
    #[error("write fault")]
    WriteFault,
    /// Memory ran out.
    #[error("out of memory")]
    Alloc,
}
