// What a new subscriber takes.
ghost use Rattle.std.specs.Prelude.{◌≡◌, ◌++◌, ◌∷◌, [], IfOk, OnErr, OnOk, Some};
ghost use Rattle.zt_liveliness.specs.Lively.{mode_of};
ghost use Rattle.zt_protocol.specs.Plain.{Interest, plain_call};
ghost use Rattle.zt_samples.specs.Samples.{started};

use crate::books::push_within;
use crate::mail::Mail;
use std::alloc::Global;
use zt_keys::{Key, Memory};
use zt_protocol::{Call, InterestMode, InterestOptions};
use zt_samples::{Subscriber, begin};

// The interest of a subscriber.
pub(crate) fn subscription<K: Key>(
    alloc: Global,
    session: u32,
    id: u32,
    expr: &K,
    history: bool,
) -> Result<Call<K>, Memory>
    ensures { IfOk result (λ call. plain_call call
        ≡ Interest session id (mode_of history) (record { 0 = 8 }) (Some expr.now)) }
{
    let mode = if history {
        InterestMode::CurrentFuture
    } else {
        InterestMode::Future
    };
    Ok(Call::Interest {
        face: session,
        id,
        mode,
        options: InterestOptions::TOKENS,
        expr: Some(expr.copy(alloc)?),
    })
}

// A session has one more subscriber, which is given first what it begins with. After an error all
// stays as it was.
pub(crate) fn add_subscriber<K: Key>(
    alloc: Global,
    subscribers: &mut Vec<Subscriber<K>>,
    mail: &mut Mail<K>,
    session: u32,
    id: u32,
    expr: &K,
    history: bool,
) -> Result<(), Memory>
    ensures subscribers { OnOk result (subscribers.new.items ≡ subscribers.old.items
        ++ record { session = session; id = id; expr = expr.now; history = history } ∷ []) }
    ensures news { OnOk result (mail.new.news.items ≡ mail.old.news.items
        ++ started K.matching session id expr.now history mail.old.told.items) }
    ensures err { OnErr result (subscribers.new.items ≡ subscribers.old.items) }
    ensures err_news { OnErr result (mail.new.news.items ≡ mail.old.news.items) }
    ensures waiting { mail.new.waiting.items ≡ mail.old.waiting.items }
    ensures told { mail.new.told.items ≡ mail.old.told.items }
{
    let expr_kept = expr.copy(alloc)?;
    let mut first = begin(alloc, mail.told.as_slice(), session, id, expr, history)?;
    subscribers.reserve(1)?;
    mail.news.append(&mut first)?;
    push_within(
        subscribers,
        Subscriber {
            session,
            id,
            expr: expr_kept,
            history,
        },
    );
    Ok(())
}
