// Lines, kind by kind. Each function reads what stands behind the line's first word. The kinds stay
// calls: within one function they would share a frame with the values of all.
ghost use Rattle.std.specs.Option.{option_copied};
ghost use Rattle.zt_protocol.specs.Plain.{plain_line};
ghost use Rattle.zt_fields.specs.Fields.{Gives, Finds, fields_left, value_at};
ghost use Rattle.zt_lines.specs.Reading.{session_at, face_at, entities_at, link_at, unlink_at};
ghost use Rattle.zt_lines.specs.Reading.{step_at, moment_at, declare_at, undeclare_at, interest_at};
ghost use Rattle.zt_lines.specs.Reading.{interest_final_at, declare_final_at, close_at, line_at};
ghost use Rattle.zt_lines.specs.Reading.{line_read};

use crate::entities::entities_of;
use crate::makers::{gateway, trees};
use crate::words::{Word, word_of};
use std::alloc::Global;
use zt_fields::{
    direction_at, end_at, first_at, first_field, key_at, optional_key_at, optional_value_at,
    value_at,
};
use zt_keys::Key;
use zt_protocol::{Call, Line, LineError};

#[tactic(auto, unfolding(crate::specs::Reading::session_at))]
#[inline(never)]
fn session<K>(rest: Option<&str>) -> Result<Line<K>, LineError>
    ensures { Finds plain_line result (session_at (fields_left (option_copied rest.entry))) }
{
    let (gateway, rest) = value_at(rest)?;
    let (first, rest) = first_at(rest, "first=")?;
    end_at(rest)?;
    Ok(Line::Session {
        gateway,
        first: first.unwrap_or(1),
    })
}

#[tactic(auto, unfolding(crate::specs::Reading::face_at))]
#[inline(never)]
fn face<K>(rest: Option<&str>) -> Result<Line<K>, LineError>
    ensures { Finds plain_line result (face_at (fields_left (option_copied rest.entry))) }
{
    let (gateway, rest) = value_at(rest)?;
    let (mode, rest) = value_at(rest)?;
    let (zid, rest) = value_at(rest)?;
    let (region, rest) = value_at(rest)?;
    let (bound, rest) = value_at(rest)?;
    let (first, rest) = first_at(rest, "first=")?;
    end_at(rest)?;
    Ok(Line::Face {
        gateway,
        mode,
        zid,
        region,
        bound,
        first: first.unwrap_or(1),
    })
}

#[tactic(auto, unfolding(crate::specs::Reading::entities_at))]
#[inline(never)]
fn entities<K: Key>(alloc: Global, rest: Option<&str>) -> Result<Line<K>, LineError>
    ensures { Finds plain_line result
        (entities_at K.reading (fields_left (option_copied rest.entry))) }
{
    let (face, rest) = value_at(rest)?;
    let (subscribers, queryables) = entities_of(alloc, rest)?;
    Ok(Line::Speak {
        call: Call::SetEntities {
            face,
            subscribers,
            queryables,
        },
    })
}

#[tactic(auto, unfolding(crate::specs::Reading::link_at))]
#[inline(never)]
fn link<K>(rest: Option<&str>) -> Result<Line<K>, LineError>
    ensures { Finds plain_line result (link_at (fields_left (option_copied rest.entry))) }
{
    let (one, rest) = value_at(rest)?;
    let (two, rest) = value_at(rest)?;
    let (first, rest) = first_at(rest, "first=")?;
    let (back, rest) = first_at(rest, "back=")?;
    end_at(rest)?;
    Ok(Line::Link {
        one,
        two,
        first: first.unwrap_or(1),
        back: back.unwrap_or(1),
    })
}

#[tactic(auto, unfolding(crate::specs::Reading::unlink_at))]
#[inline(never)]
fn unlink<K>(rest: Option<&str>) -> Result<Line<K>, LineError>
    ensures { Finds plain_line result (unlink_at (fields_left (option_copied rest.entry))) }
{
    let (link, rest) = value_at(rest)?;
    end_at(rest)?;
    Ok(Line::Unlink { link })
}

#[tactic(auto, unfolding(crate::specs::Reading::step_at))]
#[inline(never)]
fn step<K>(rest: Option<&str>) -> Result<Line<K>, LineError>
    ensures { Finds plain_line result (step_at (fields_left (option_copied rest.entry))) }
{
    let (link, rest) = value_at(rest)?;
    let (back, rest) = direction_at(rest)?;
    end_at(rest)?;
    Ok(Line::Step { link, back })
}

#[tactic(auto, unfolding(crate::specs::Reading::moment_at))]
#[inline(never)]
fn moment<K>(rest: Option<&str>) -> Result<Line<K>, LineError>
    ensures { Finds plain_line result (moment_at (fields_left (option_copied rest.entry))) }
{
    let (gateway, rest) = value_at(rest)?;
    let (now, rest) = value_at(rest)?;
    end_at(rest)?;
    Ok(Line::Moment { gateway, now })
}

#[tactic(auto, unfolding(crate::specs::Reading::declare_at))]
#[inline(never)]
fn declare<K: Key>(alloc: Global, rest: Option<&str>) -> Result<Line<K>, LineError>
    ensures { Finds plain_line result
        (declare_at K.reading (fields_left (option_copied rest.entry))) }
{
    let (face, rest) = value_at(rest)?;
    let (id, rest) = value_at(rest)?;
    let (expr, rest) = key_at(alloc, rest)?;
    let (interest_id, rest) = optional_value_at(rest, "interest=")?;
    let (node, rest) = optional_value_at(rest, "node=")?;
    end_at(rest)?;
    Ok(Line::Speak {
        call: Call::DeclareToken {
            face,
            id,
            expr,
            node_id: node.unwrap_or(0),
            interest_id,
        },
    })
}

#[tactic(auto, unfolding(crate::specs::Reading::undeclare_at))]
#[inline(never)]
fn undeclare<K: Key>(alloc: Global, rest: Option<&str>) -> Result<Line<K>, LineError>
    ensures { Finds plain_line result
        (undeclare_at K.reading (fields_left (option_copied rest.entry))) }
{
    let (face, rest) = value_at(rest)?;
    let (id, rest) = value_at(rest)?;
    let (expr, rest) = optional_key_at(alloc, rest)?;
    let (node, rest) = optional_value_at(rest, "node=")?;
    end_at(rest)?;
    Ok(Line::Speak {
        call: Call::UndeclareToken {
            face,
            id,
            expr,
            node_id: node.unwrap_or(0),
        },
    })
}

#[tactic(auto, unfolding(crate::specs::Reading::interest_at))]
#[inline(never)]
fn interest<K: Key>(alloc: Global, rest: Option<&str>) -> Result<Line<K>, LineError>
    ensures { Finds plain_line result
        (interest_at K.reading (fields_left (option_copied rest.entry))) }
{
    let (face, rest) = value_at(rest)?;
    let (id, rest) = value_at(rest)?;
    let (mode, rest) = value_at(rest)?;
    let (options, rest) = value_at(rest)?;
    let (expr, rest) = optional_key_at(alloc, rest)?;
    end_at(rest)?;
    Ok(Line::Speak {
        call: Call::Interest {
            face,
            id,
            mode,
            options,
            expr,
        },
    })
}

#[tactic(auto, unfolding(crate::specs::Reading::interest_final_at))]
#[inline(never)]
fn interest_final<K>(rest: Option<&str>) -> Result<Line<K>, LineError>
    ensures { Finds plain_line result (interest_final_at (fields_left (option_copied rest.entry))) }
{
    let (face, rest) = value_at(rest)?;
    let (id, rest) = value_at(rest)?;
    end_at(rest)?;
    Ok(Line::Speak {
        call: Call::InterestFinal { face, id },
    })
}

#[tactic(auto, unfolding(crate::specs::Reading::declare_final_at))]
#[inline(never)]
fn declare_final<K>(rest: Option<&str>) -> Result<Line<K>, LineError>
    ensures { Finds plain_line result (declare_final_at (fields_left (option_copied rest.entry))) }
{
    let (face, rest) = value_at(rest)?;
    let (interest_id, rest) = value_at(rest)?;
    end_at(rest)?;
    Ok(Line::Speak {
        call: Call::DeclareFinal { face, interest_id },
    })
}

#[tactic(auto, unfolding(crate::specs::Reading::close_at))]
#[inline(never)]
fn close<K>(rest: Option<&str>) -> Result<Line<K>, LineError>
    ensures { Finds plain_line result (close_at (fields_left (option_copied rest.entry))) }
{
    let (face, rest) = value_at(rest)?;
    end_at(rest)?;
    Ok(Line::Speak {
        call: Call::CloseFace { face },
    })
}

#[tactic(auto, unfolding(crate::specs::Reading::line_at, crate::specs::Reading::kind_at))]
fn line<K: Key>(alloc: Global, text: &str) -> Result<Line<K>, LineError>
    ensures { Finds plain_line result (line_at K.reading (fields_left (Some text.now))) }
{
    let (word, rest) = first_field(text);
    match word_of(word) {
        Some(Word::Declare) => declare(alloc, rest),
        Some(Word::Undeclare) => undeclare(alloc, rest),
        Some(Word::Step) => step(rest),
        Some(Word::Interest) => interest(alloc, rest),
        Some(Word::Session) => session(rest),
        Some(Word::Close) => close(rest),
        Some(Word::Link) => link(rest),
        Some(Word::Moment) => moment(rest),
        Some(Word::InterestFinal) => interest_final(rest),
        Some(Word::DeclareFinal) => declare_final(rest),
        Some(Word::Unlink) => unlink(rest),
        Some(Word::Gateway) => gateway(alloc, rest),
        Some(Word::Face) => face(rest),
        Some(Word::Trees) => trees(alloc, rest),
        Some(Word::Entities) => entities(alloc, rest),
        None => Err(LineError::NotInGrammar),
    }
}

/// The line of a script that these bytes spell.
///
/// `NotUtf8` comes exactly where the bytes aren't UTF-8, `NotInGrammar` exactly where they are and
/// the line is in no form of the grammar. The only other error is `Memory`.
#[tactic(auto, unfolding(crate::specs::Reading::line_read))]
pub fn read_line<K: Key>(alloc: Global, bytes: &[u8]) -> Result<Line<K>, LineError>
    ensures { Gives plain_line result (line_read K.reading bytes.now) }
{
    match std::str::from_utf8(bytes) {
        Ok(text) => line(alloc, text),
        Err(_) => Err(LineError::NotUtf8),
    }
}
