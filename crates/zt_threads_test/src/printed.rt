//! Polls in print.
use std::alloc::Global;
use std::test::Fail;
use zt_keys::{Key, KeyExpr};
use zt_protocol::Refusal;
use zt_watchers::{Found, Poll, write_polls};

// The keys that these texts spell.
fn keys(alloc: Global, texts: &[&str]) -> Result<Vec<KeyExpr>, Fail> {
    let mut keys = Vec::new(alloc);
    for text in texts {
        keys.push(KeyExpr::read(alloc, text)?)?;
    }
    Ok(keys)
}

#[test]
fn polls_are_printed_in_their_order(rt: HostRuntime) -> Result<(), Fail> {
    let alloc = rt.alloc();
    let found = Found {
        joined: keys(alloc, &["a", "b/c"])?,
        left: keys(alloc, &["**"])?,
    };
    let mut polls = Vec::new(alloc);
    polls.push(Poll {
        place: 7,
        outcome: Ok(found),
    })?;
    polls.push(Poll {
        place: 4096,
        outcome: Err(Refusal::UnknownFace),
    })?;
    let mut text = String::from_str(alloc, "total 1 0 0\n")?;
    write_polls(&mut text, polls.as_slice())?;
    assert!(rt;
        text.as_str() == "total 1 0 0\npoll 7\n+ a\n+ b/c\n- **\npoll 4096 refused UnknownFace\n"
    );
    Ok(())
}
