//! What no clause says: which lines are read, and tables of lines and entries with their texts.
use bitflags::Flags;
use std::alloc::Global;
use std::test::*;
use zt_keys::{Key, KeyError, KeyExpr};
use zt_lines::read_line;
use zt_protocol::{
    Entry, InterestMode, InterestOptions, Line, LineError, Message, QueryableInfo, Refusal, Report,
    Sent,
};
use zt_region::{Region, WhatAmI};
use zt_text::{print_entry, print_report, read_sent};

const GOOD: [&str; 45] = [
    "gateway client 1",
    "gateway router ffffffffffffffffffffffffffffffff",
    "gateway peer a regions=south0-client",
    "gateway client 1 regions=south0-client,south4294967295-router south=auto name=a_9 timeout=0 refuse=north:local,south1-peer:north",
    "gateway client 1 south=any",
    "gateway client 1 south=any;all|!zid:1+ff&mode:peer+client&name:a+b;!all",
    "gateway client 1 south=mode:router",
    "gateway client 1 timeout=18446744073709551615",
    "session 0",
    "session 4294967295",
    "session 1 first=1",
    "session 1 first=4294967295",
    "face 1 peer 2 north south",
    "face 1 client 2 south7-peer north first=3",
    "face 1 router 2 local south",
    "link 1 2",
    "link 1 2 first=5",
    "link 1 2 back=6",
    "link 1 2 first=5 back=6",
    "unlink 3",
    "step 1 fwd",
    "step 1 back",
    "declare 1 1 k",
    "declare 1 0 a/**/c interest=0 node=65535",
    "declare 1 1 k node=0",
    "declare 1 1 interest=1",
    "undeclare 1 1",
    "undeclare 1 1 expr=k",
    "undeclare 1 1 expr=k node=7",
    "undeclare 1 1 node=7",
    "interest 1 1 current -",
    "interest 1 1 future ksqta",
    "interest 1 1 current-future st expr=a/*",
    "interest 1 1 current a",
    "interest-final 1 2",
    "declare-final 1 2",
    "close 9",
    "moment 1 18446744073709551615",
    "trees 1 north routers=0:1",
    "trees 1 south0-router routers=0:1,65535:ff links=4294967295:0:1 children=1:2,3:4",
    "trees 1 local routers=0:1 children=1:2",
    "entities 1",
    "entities 1 s s q 0 0 q",
    "entities 1 s k/a s k/b q 1 65535 k",
    "declare 1 1 ké",
];

const BAD: [&str; 79] = [
    "",
    " ",
    "gateway",
    "gateway client",
    "gateway client 0",
    "gateway client 01",
    "gateway client F",
    "gateway client 100000000000000000000000000000000",
    "gateway server 1",
    "gateway client 1 ",
    "gateway client 1 regions=",
    "gateway client 1 regions=north",
    "gateway client 1 regions=south0-client,",
    "gateway client 1 regions=south00-client",
    "gateway client 1 regions=south0-client:x",
    "gateway client 1 name=",
    "gateway client 1 name=A",
    "gateway client 1 name=abcdefghijklmnopqrstuvwxyz0123456",
    "gateway client 1 timeout=18446744073709551616",
    "gateway client 1 timeout=5 name=a",
    "gateway client 1 name=a name=b",
    "gateway client 1 south=",
    "gateway client 1 south=auto;any",
    "gateway client 1 south=any|all",
    "gateway client 1 south=!!all",
    "gateway client 1 south=mode:peer&zid:1",
    "gateway client 1 south=zid:",
    "gateway client 1 refuse=north",
    "gateway client 1 refuse=north:local:north",
    "session",
    "session 01",
    "session -1",
    "session +1",
    "session 4294967296",
    "session 1 first=0",
    "session 1 first=01",
    "session 1 back=1",
    "session  1",
    " session 1",
    "session 1 first=1 first=2",
    "face 1 peer 2 north",
    "face 1 peer 2 south0 north",
    "face 1 peer 2 north up",
    "link 1 2 back=6 first=5",
    "unlink 3 4",
    "step 1 forth",
    "step 1",
    "declare 1 1",
    "declare 1 1 k//a",
    "declare 1 1 k node=65536",
    "declare 1 1 k node=1 interest=1",
    "declare 1 1 k\t",
    "declare 1 1 k\r",
    "Declare 1 1 k",
    "declare\t1 1 k",
    "undeclare 1 1 k",
    "undeclare 1 1 expr=",
    "interest 1 1 current",
    "interest 1 1 current ts",
    "interest 1 1 current tt",
    "interest 1 1 current x",
    "interest 1 1 current -t",
    "interest 1 1 past t",
    "interest 1 1 current t k",
    "interest-final 1",
    "declare-final 1 2 3",
    "close",
    "moment 1",
    "trees 1 north",
    "trees 1 north routers=",
    "trees 1 north routers=0:1 children=1:2 links=1:1:1",
    "trees 1 north routers=0:1:2",
    "trees 1 north links=1:1:1",
    "entities 1 s",
    "entities 1 q 0 k",
    "entities 1 q 2 0 k",
    "entities 1 x k",
    "entities",
    "frob 1",
];

#[test]
fn lines_at_the_edges(rt: HostRuntime) {
    for line in &GOOD {
        assert!(rt;
            read_line::<KeyExpr>(rt.alloc(), line.as_bytes()).is_ok(),
            "{line}"
        );
    }
    for line in &BAD {
        let read = read_line::<KeyExpr>(rt.alloc(), line.as_bytes());
        assert!(rt; matches!(read, Err(LineError::NotInGrammar)), "{line}");
    }
    let read = read_line::<KeyExpr>(rt.alloc(), b"session \xff");
    assert!(rt; matches!(read, Err(LineError::NotUtf8)));
}

#[test]
fn values_of_a_line(rt: HostRuntime) {
    let line = read_line::<KeyExpr>(
        rt.alloc(),
        b"gateway router ff regions=south3-peer timeout=7",
    );
    let Ok(
        Line::Gateway {
            mode,
            zid,
            regions,
            timeout,
            ..
        },
    ) = line
    else {
        panic!(rt; "a gateway");
    };
    assert!(rt; mode == WhatAmI::Router && zid.0 == 255 && timeout == 7);
    assert!(rt;
        regions.as_slice()
            == [Region::South {
                id: 3,
                mode: WhatAmI::Peer
            }]
            .as_slice()
    );
    let line = read_line::<KeyExpr>(rt.alloc(), b"link 1 2 back=4");
    assert!(rt;
        matches!(
            line,
            Ok(Line::Link {
                one: 1,
                two: 2,
                first: 1,
                back: 4
            })
        )
    );
}

fn key(alloc: Global, text: &str) -> Result<KeyExpr, KeyError> {
    KeyExpr::read(alloc, text)
}

fn prints(alloc: Global, message: Message<KeyExpr>, text: &str) -> Result<bool, Fail> {
    let mut sents = Vec::new(alloc);
    sents.push(Sent {
        gateway: 1,
        face: 2,
        message,
    })?;
    let entry = Entry { outcome: Ok(sents) };
    Ok(print_entry(alloc, 3, &entry)?.as_str() == text)
}

#[test]
fn messages(rt: HostRuntime) -> Result<(), Fail> {
    let alloc = rt.alloc();
    let token = Message::DeclareToken {
        id: 4,
        expr: key(alloc, "k/a")?,
        interest_id: None,
        node_id: 5,
    };
    assert!(rt; prints(alloc, token, "3 ok\n> 1 2 token 4 5 k/a\n")?);
    let answer = Message::DeclareToken {
        id: 4,
        expr: key(alloc, "k")?,
        interest_id: Some(6),
        node_id: 0,
    };
    assert!(rt; prints(alloc, answer, "3 ok\n> 1 2 answer 6 4 0 k\n")?);
    let gone = Message::UndeclareToken {
        id: 4,
        expr: None,
        node_id: 0,
    };
    assert!(rt; prints(alloc, gone, "3 ok\n> 1 2 untoken 4 0\n")?);
    let gone = Message::UndeclareToken {
        id: 0,
        expr: Some(key(alloc, "k")?),
        node_id: 9,
    };
    assert!(rt; prints(alloc, gone, "3 ok\n> 1 2 untoken 0 9 k\n")?);
    assert!(rt;
        prints(
            alloc,
            Message::DeclareFinal { interest_id: 7 },
            "3 ok\n> 1 2 final 7\n"
        )?
    );
    let options = InterestOptions::from_bits_retain(31);
    let mode = InterestMode::CurrentFuture;
    let asked = Message::Interest {
        id: 1,
        mode,
        options,
        expr: Some(key(alloc, "**")?),
    };
    assert!(rt;
        prints(
            alloc,
            asked,
            "3 ok\n> 1 2 interest 1 current-future ksqta **\n"
        )?
    );
    let options = InterestOptions::from_bits_retain(0);
    let asked = Message::Interest {
        id: 1,
        mode: InterestMode::Current,
        options,
        expr: None,
    };
    assert!(rt; prints(alloc, asked, "3 ok\n> 1 2 interest 1 current -\n")?);
    assert!(rt;
        prints(
            alloc,
            Message::InterestFinal { id: 8 },
            "3 ok\n> 1 2 interest-final 8\n"
        )?
    );
    let subscriber = Message::DeclareSubscriber {
        id: 4,
        expr: key(alloc, "k")?,
        interest_id: 6,
    };
    assert!(rt; prints(alloc, subscriber, "3 ok\n> 1 2 subscriber 6 4 k\n")?);
    let info = QueryableInfo {
        complete: true,
        distance: 65535,
    };
    let queryable = Message::DeclareQueryable {
        id: 4,
        expr: key(alloc, "k")?,
        info,
        interest_id: 6,
    };
    assert!(rt; prints(alloc, queryable, "3 ok\n> 1 2 queryable 6 4 1 65535 k\n")?);
    Ok(())
}

fn is_undeclaration(sent: &Sent<KeyExpr>) -> bool {
    let is_there = sent.gateway == 1 && sent.face == 2;
    is_there
        && matches!(
            &sent.message,
            Message::UndeclareToken {
                id: 4,
                expr: Some(_),
                node_id: 0
            }
        )
}

fn is_read(alloc: Global, line: &[u8]) -> bool {
    match read_sent::<KeyExpr>(alloc, line) {
        Ok(sent) => is_undeclaration(&sent),
        Err(_) => false,
    }
}

#[test]
fn other_text(rt: HostRuntime) -> Result<(), Fail> {
    let alloc = rt.alloc();
    let refused: Entry<KeyExpr> = Entry {
        outcome: Err(Refusal::UnknownFace),
    };
    assert!(rt; print_entry(alloc, 12, &refused)?.as_str() == "12 refused UnknownFace\n");
    let report = Report {
        lines: 4,
        messages: 340282366920938463463374607431768211455,
        refusals: 0,
    };
    assert!(rt;
        print_report(alloc, &report)?.as_str()
            == "total 4 340282366920938463463374607431768211455 0\n"
    );
    assert!(rt; is_read(alloc, b"> 1 2 untoken 4 0 k"));
    assert!(rt; read_sent::<KeyExpr>(alloc, b"> 1 2 untoken 4 0 k k").is_err());
    assert!(rt; read_sent::<KeyExpr>(alloc, b"1 ok").is_err());
    Ok(())
}
