//! Refusals by their names.
ghost use Rattle.zt_check_trace.specs.Names.{FindsRefusal};

use zt_protocol::Refusal;

/// The refusal that a transcript prints by this name. None exactly where it names none.

pub fn refusal_named(name: &str) -> Option<Refusal>
    ensures { FindsRefusal name.now result }
{
    Some(match name {
        "UnknownGateway" => Refusal::UnknownGateway,
        "UnknownLink" => Refusal::UnknownLink,
        "EmptyLink" => Refusal::EmptyLink,
        "UnknownFace" => Refusal::UnknownFace,
        "LinkedFace" => Refusal::LinkedFace,
        "NoSuchRegion" => Refusal::NoSuchRegion,
        "RegionConflict" => Refusal::RegionConflict,
        "NorthTaken" => Refusal::NorthTaken,
        "WouldLoop" => Refusal::WouldLoop,
        "AnswerFromSouth" => Refusal::AnswerFromSouth,
        "FinalFromSouth" => Refusal::FinalFromSouth,
        "InterestFromRouter" => Refusal::InterestFromRouter,
        "InterestFromNorth" => Refusal::InterestFromNorth,
        "IllegalCurrent" => Refusal::IllegalCurrent,
        "InterestIdInUse" => Refusal::InterestIdInUse,
        "UnknownInterest" => Refusal::UnknownInterest,
        "UnknownAsk" => Refusal::UnknownAsk,
        "UnknownRouter" => Refusal::UnknownRouter,
        "TokenIdZero" => Refusal::TokenIdZero,
        "TokenIdInUse" => Refusal::TokenIdInUse,
        "UnknownToken" => Refusal::UnknownToken,
        "MomentBack" => Refusal::MomentBack,
        "DictionaryFull" => Refusal::DictionaryFull,
        "IdsSpent" => Refusal::IdsSpent,
        "NumbersSpent" => Refusal::NumbersSpent,
        _ => return None,
    })
}
