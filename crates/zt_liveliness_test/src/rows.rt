// Rows of calls, and their answers.
use crate::asking::wrong_in;
use std::test::Fail;
use zt_region::WhatAmI;

#[test]
fn subscribers_see_tokens_come_and_go(rt: HostRuntime) -> Result<(), Fail> {
    let row = "session = 1
session = 2
subscribe 1 k/* history = 1
declare 2 k/a = 1 of 2
declare 2 k/a = 2 of 2
sample 1 1 = put k/a
sample 1 1 = none
undeclare 2 1 = ok
sample 1 1 = none
undeclare 2 2 = ok
sample 1 1 = delete k/a
sample 1 1 = none
declare 2 k/b = 3 of 2
get 1 ** = 2
reply 1 2 = live k/b
reply 1 2 = done
reply 1 2 = no such get
session = 3
subscribe 3 k/* live = 1
sample 3 1 = none
undeclare 2 3 = ok
sample 3 1 = delete k/b
sample 3 1 = none
sample 1 1 = put k/b
sample 1 1 = delete k/b
unsubscribe 3 1 = ok
unsubscribe 3 1 = NoSuchSubscriber
";
    assert_eq!(rt; wrong_in(rt.alloc(), WhatAmI::Client, row)?.as_str(), "");
    Ok(())
}

#[test]
fn queries_wait_for_an_uplink(rt: HostRuntime) -> Result<(), Fail> {
    let row = "session = 1
session = 2
uplink 9 router south = 3
get 2 k = 1
send 3 = interest 1 current t k
send 3 = none
reply 2 1 = not yet
receive 3 > 1 1 answer 1 0 0 k = ok
receive 3 > 1 1 final 1 = ok
reply 2 1 = live k
reply 2 1 = done
receive 3 > 1 1 final 1 = Refused(UnknownAsk)
uplink 8 router south = Refused(NorthTaken)
close 1 = ok
declare 1 k = NoSuchFace
expire 5 = ok
expire 4 = Refused(MomentBack)
";
    assert_eq!(rt; wrong_in(rt.alloc(), WhatAmI::Client, row)?.as_str(), "");
    Ok(())
}

#[test]
fn an_undeclaration_of_what_was_never_told(rt: HostRuntime) -> Result<(), Fail> {
    let row = "session = 1
uplink 9 router south = 2
subscribe 1 k/* history = 1
subscribe 1 k/* live = 2
send 2 = interest 1 current-future t k/*
send 2 = interest 2 future t k/*
receive 2 > 1 1 untoken 0 0 k/b = ok
sample 1 1 = none
sample 1 2 = delete k/b
receive 2 > 1 1 token 7 0 k/a = ok
receive 2 > 1 1 untoken 0 0 k/a = ok
sample 1 1 = put k/a
sample 1 1 = none
sample 1 2 = put k/a
sample 1 2 = none
receive 2 > 1 1 untoken 7 0 k/b = ok
sample 1 1 = delete k/a
sample 1 1 = none
sample 1 2 = delete k/a
sample 1 2 = none
receive 2 > 1 1 untoken 7 0 = Refused(UnknownToken)
receive 2 > 1 1 queryable 1 4 1 0 k/a = ok
sample 1 2 = none
";
    assert_eq!(rt; wrong_in(rt.alloc(), WhatAmI::Client, row)?.as_str(), "");
    Ok(())
}

#[test]
fn subscribers_of_one_session_overlap(rt: HostRuntime) -> Result<(), Fail> {
    let row = "session = 1
session = 2
declare 2 k/a = 1 of 2
subscribe 1 k/* live = 1
sample 1 1 = none
subscribe 1 k/* history = 2
sample 1 1 = put k/a
sample 1 1 = none
sample 1 2 = put k/a
sample 1 2 = none
get 1 ** = 3
sample 1 2 = none
reply 1 3 = live k/a
reply 1 3 = done
subscribe 1 k/a history = 4
sample 1 1 = none
sample 1 2 = none
sample 1 4 = put k/a
sample 1 4 = none
declare 2 k/b = 2 of 2
sample 1 4 = none
sample 1 2 = put k/b
undeclare 2 1 = ok
sample 1 1 = put k/b
sample 1 1 = delete k/a
sample 1 2 = delete k/a
sample 1 4 = delete k/a
sample 1 4 = none
";
    assert_eq!(rt; wrong_in(rt.alloc(), WhatAmI::Client, row)?.as_str(), "");
    Ok(())
}

#[test]
fn calls_say_why_they_fail(rt: HostRuntime) -> Result<(), Fail> {
    let row = "session = 1
uplink 9 router south = 2
declare 2 k = NoSuchFace
get 2 k = NoSuchFace
subscribe 3 k history = NoSuchFace
receive 1 > 1 1 token 1 0 k = NoSuchFace
send 1 = none
declare 1 k = 1 of 1
send 2 = token 1 0 k
undeclare 1 2 = NoSuchToken
undeclare 2 1 = NoSuchToken
get 1 k = 1
send 2 = interest 2 current t k
reply 1 1 = live k
reply 1 1 = not yet
reply 1 2 = no such get
undeclare 1 1 = ok
send 2 = untoken 1 0
undeclare 1 1 = NoSuchToken
unsubscribe 1 1 = NoSuchSubscriber
unsubscribe 2 1 = NoSuchFace
sample 1 1 = none
close 2 = ok
send 2 = none
reply 1 1 = done
close 2 = NoSuchFace
close 0 = NoSuchFace
get 1 k = 2
close 1 = ok
reply 1 2 = no such get
undeclare 1 1 = NoSuchToken
session = 3
declare 3 k = 1 of 3
";
    assert_eq!(rt; wrong_in(rt.alloc(), WhatAmI::Client, row)?.as_str(), "");
    Ok(())
}

#[test]
fn a_peer_has_many_uplinks(rt: HostRuntime) -> Result<(), Fail> {
    let row = "session = 1
uplink 9 peer north = 2
send 2 = final 0
uplink 8 router south = 3
send 3 = none
get 1 k = 1
send 2 = interest 1 current t k
send 3 = interest 1 current t k
expire 9 = ok
reply 1 1 = not yet
expire 10 = ok
reply 1 1 = done
receive 2 > 1 1 final 0 = ok
receive 2 > 1 1 interest 5 future t = ok
declare 1 k = 1 of 1
send 2 = token 2 0 k
send 3 = token 2 0 k
receive 2 > 1 1 interest-final 5 = ok
receive 2 > 1 1 interest-final 5 = Refused(UnknownInterest)
receive 2 > 1 1 final 1 = Refused(UnknownAsk)
";
    assert_eq!(rt; wrong_in(rt.alloc(), WhatAmI::Peer, row)?.as_str(), "");
    Ok(())
}
