// Rows of calls as text: a line has a call and, behind ` = `, what it answers.
use std::alloc::Global;
use std::test::Fail;
use zt_gateway::GatewayBuilder;
use zt_keys::{Key, KeyExpr};
use zt_liveliness::{ApiError, Liveliness, Reply, Sample, Token};
use zt_protocol::{Entry, Message, Sent};
use zt_region::{Bound, WhatAmI, Zid};
use zt_text::{print_entry, read_sent};

// Carries out a row of calls over a gateway without faces, and answers the first line whose call
// answers something else, with that answer; the empty text where there is none.
pub(crate) fn wrong_in(alloc: Global, mode: WhatAmI, row: &str) -> Result<String, Fail> {
    let gateway = GatewayBuilder::new(alloc, mode, Zid(1))
        .timeout(10)
        .build::<KeyExpr>()?;
    let mut engine = Box::new(alloc, Liveliness::new(alloc, gateway))?;
    first_wrong(alloc, &mut engine, row)
}

fn first_wrong(alloc: Global, engine: &mut Liveliness<KeyExpr>, row: &str) -> Result<String, Fail> {
    let mut left = row;
    for _ in 0..row.len() {
        let Some((line, rest)) = left.split_once('\n') else {
            break;
        };
        left = rest;
        let (call, want) = line.split_once(" = ").ok_or("an answer is missing")?;
        let words: Vec<&str> = call.split_whitespace().collect(alloc)?;
        let got = answer_of(alloc, engine, call, words.as_slice())?;
        if got.as_str() != want {
            return Ok(format!(in alloc; "{line}, not {got}")?);
        }
    }
    Ok(String::new(alloc))
}

// What the call answers.
fn answer_of(
    alloc: Global,
    engine: &mut Liveliness<KeyExpr>,
    call: &str,
    words: &[&str],
) -> Result<String, Fail> {
    match *words {
        ["session"] => number(alloc, engine.session()),
        ["close", face] => done(alloc, engine.close(face.parse()?)),
        ["expire", now] => done(alloc, engine.expire(now.parse()?)),
        ["reply", session, get] => reply(alloc, engine.reply(session.parse()?, get.parse()?)),
        ["sample", session, id] => sample(alloc, engine.sample(session.parse()?, id.parse()?)),
        ["undeclare", session, id] => undeclare(alloc, engine, session.parse()?, id.parse()?),
        ["unsubscribe", session, id] => done(
            alloc,
            engine.undeclare_subscriber(session.parse()?, id.parse()?),
        ),
        ["send", uplink] => sent(alloc, engine.send(uplink.parse()?)),
        ["receive", uplink, ..] => receive(alloc, engine, uplink.parse()?, call),
        _ => made(alloc, engine, words),
    }
}

// The same of calls with keys, and of an uplink.
fn made(alloc: Global, engine: &mut Liveliness<KeyExpr>, words: &[&str]) -> Result<String, Fail> {
    match *words {
        ["uplink", zid, mode, bound] => number(
            alloc,
            engine.uplink(Zid(zid.parse()?), mode_of(mode)?, bound_of(bound)?),
        ),
        ["declare", session, key] => {
            token(
                alloc,
                engine.declare_token(session.parse()?, &KeyExpr::read(alloc, key)?),
            )
        }
        ["get", session, expr] => {
            number(
                alloc,
                engine.get(session.parse()?, &KeyExpr::read(alloc, expr)?),
            )
        }
        ["subscribe", session, expr, history] => number(
            alloc,
            engine.declare_subscriber(
                session.parse()?,
                &KeyExpr::read(alloc, expr)?,
                history == "history",
            ),
        ),
        _ => Err("an unknown call".into()),
    }
}

fn mode_of(word: &str) -> Result<WhatAmI, Fail> {
    match word {
        "client" => Ok(WhatAmI::Client),
        "peer" => Ok(WhatAmI::Peer),
        "router" => Ok(WhatAmI::Router),
        _ => Err("a mode".into()),
    }
}

fn bound_of(word: &str) -> Result<Bound, Fail> {
    match word {
        "north" => Ok(Bound::North),
        "south" => Ok(Bound::South),
        _ => Err("a bound".into()),
    }
}

fn undeclare(
    alloc: Global,
    engine: &mut Liveliness<KeyExpr>,
    session: u32,
    id: u32,
) -> Result<String, Fail> {
    let token = Token { session, id };
    match engine.undeclare_token(token) {
        Ok(()) => done(alloc, Ok(())),
        Err(back) if back.token == token => done(alloc, Err(back.error)),
        Err(_) => Err("another token".into()),
    }
}

// The message stands behind the uplink's number, in the form in which it is printed.
fn receive(
    alloc: Global,
    engine: &mut Liveliness<KeyExpr>,
    uplink: u32,
    call: &str,
) -> Result<String, Fail> {
    let (_, line) = call.split_once(" >").ok_or("a message")?;
    let text = format!(in alloc; ">{line}")?;
    let sent = read_sent::<KeyExpr>(alloc, text.as_str().as_bytes())?;
    done(alloc, engine.receive(uplink, &sent.message))
}

fn done(alloc: Global, answer: Result<(), ApiError>) -> Result<String, Fail> {
    match answer {
        Ok(()) => Ok(String::from_str(alloc, "ok")?),
        Err(error) => Ok(format!(in alloc; "{error:?}")?),
    }
}

fn number(alloc: Global, answer: Result<u32, ApiError>) -> Result<String, Fail> {
    match answer {
        Ok(number) => Ok(format!(in alloc; "{number}")?),
        Err(error) => done(alloc, Err(error)),
    }
}

fn token(alloc: Global, answer: Result<Token, ApiError>) -> Result<String, Fail> {
    match answer {
        Ok(token) => Ok(format!(in alloc; "{} of {}", token.id, token.session)?),
        Err(error) => done(alloc, Err(error)),
    }
}

fn reply(alloc: Global, answer: Reply<KeyExpr>) -> Result<String, Fail> {
    match answer {
        Reply::Live(expr) => Ok(format!(in alloc; "live {}", expr.text())?),
        Reply::Done => Ok(String::from_str(alloc, "done")?),
        Reply::NotYet => Ok(String::from_str(alloc, "not yet")?),
        Reply::NoSuchGet => Ok(String::from_str(alloc, "no such get")?),
    }
}

fn sample(alloc: Global, answer: Option<Sample<KeyExpr>>) -> Result<String, Fail> {
    match answer {
        Some(Sample::Put(expr)) => Ok(format!(in alloc; "put {}", expr.text())?),
        Some(Sample::Delete(expr)) => Ok(format!(in alloc; "delete {}", expr.text())?),
        None => Ok(String::from_str(alloc, "none")?),
    }
}

// A message is printed as that of face 0 in the entry of a line.
fn sent(alloc: Global, answer: Option<Message<KeyExpr>>) -> Result<String, Fail> {
    let Some(message) = answer else {
        return Ok(String::from_str(alloc, "none")?);
    };
    let sents = vec![in alloc;
        Sent {
            gateway: 1,
            face: 0,
            message
        },
    ]?;
    let text = print_entry(alloc, 1, &Entry { outcome: Ok(sents) })?;
    let (_, rest) = text.as_str().split_once("> 1 0 ").ok_or("a message")?;
    let (line, _) = rest.split_once('\n').ok_or("a line")?;
    Ok(String::from_str(alloc, line)?)
}
