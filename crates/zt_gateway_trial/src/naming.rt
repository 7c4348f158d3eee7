// Calls by their names.
ghost use Rattle.zt_laws.specs.Sound.{CallHasFirstIds};
ghost use Rattle.zt_protocol.specs.Plain.{plain_call};

use zt_gateway::Gateway;
use zt_keys::Key;
use zt_protocol::{Call, CallError};

fn made(answer: Result<u32, CallError>) -> Result<Option<u32>, CallError> {
    match answer {
        Ok(face) => Ok(Some(face)),
        Err(error) => Err(error),
    }
}

fn done(answer: Result<(), CallError>) -> Result<Option<u32>, CallError> {
    match answer {
        Ok(()) => Ok(None),
        Err(error) => Err(error),
    }
}

// A call that speaks for a face with a key, or without one for all.
fn speak<K: Key>(gateway: &mut Gateway<K>, call: &Call<K>) -> Result<(), CallError> {
    match call {
        Call::DeclareToken {
            face,
            id,
            expr,
            node_id,
            interest_id,
        } => gateway.declare_token(*face, *id, expr, *node_id, *interest_id),
        Call::UndeclareToken {
            face,
            id,
            expr,
            node_id,
        } => gateway.undeclare_token(*face, *id, expr.as_ref(), *node_id),
        Call::Interest {
            face,
            id,
            mode,
            options,
            expr,
        } => gateway.interest(*face, *id, *mode, *options, expr.as_ref()),
        other => end(gateway, other),
    }
}

// A call that ends something.
fn end<K: Key>(gateway: &mut Gateway<K>, call: &Call<K>) -> Result<(), CallError> {
    match call {
        Call::InterestFinal { face, id } => gateway.interest_final(*face, *id),
        Call::DeclareFinal { face, interest_id } => gateway.declare_final(*face, *interest_id),
        Call::CloseFace { face } => gateway.close_face(*face),
        Call::Expire { now } => gateway.expire(*now),
        other => set(gateway, other),
    }
}

// A call that hands over trees or entities.
fn set<K: Key>(gateway: &mut Gateway<K>, call: &Call<K>) -> Result<(), CallError> {
    match call {
        Call::SetTrees { region, table } => gateway.set_trees(*region, table),
        Call::SetEntities {
            face,
            subscribers,
            queryables,
        } => gateway.set_entities(*face, subscribers.as_slice(), queryables.as_slice()),
        _ => Ok(()),
    }
}

/// Makes the call by its name, and answers the number of the face that it makes.
pub fn call_by_name<K: Key>(
    gateway: &mut Gateway<K>,
    call: &Call<K>,
) -> Result<Option<u32>, CallError>
    requires { CallHasFirstIds (plain_call call.now) }
{
    match call {
        Call::NewSession { first } => made(gateway.new_session(*first)),
        Call::NewTransport {
            zid,
            whatami,
            region,
            remote_bound,
            first,
        } => made(gateway.new_transport_unicast(*zid, *whatami, *region, *remote_bound, *first)),
        other => done(speak(gateway, other)),
    }
}
