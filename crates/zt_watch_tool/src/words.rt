// The words of the program.
ghost use Rattle.std.specs.Prelude.{◌≡◌, ◌<◌, ◌≤◌, Some, None, true, map, string_bytes, IfOk, IfSome};
ghost use Rattle.std.specs.Prelude.{OnErr};
ghost use Rattle.zt_watch_tool.specs.Words.{is_one, key_asked, may_spell_key, watch_asked};

use crate::watching::MOST_POLLS;
use std::alloc::Global;
use zt_fields::Spelled;
use zt_keys::{Key, KeyError, Memory};
use zt_workers::MOST_WORKERS;

/// What the words ask for: so many workers, so many polls beside them, and which tokens.
#[derive(Drop)]
pub struct Asked<K> {
    pub workers: u32,
    pub wanted: u32,
    pub expr: Option<K>,
}

// The expression that the words spell, where there is at most one word and it spells one. The only
// error is want of memory.
fn key_asked<K: Key>(alloc: Global, words: &[String]) -> Result<Option<Option<K>>, Memory>
    ensures ok { IfOk result (λ asked. asked ≡ key_asked K.reading (map string_bytes words.now)) }
    ensures err { OnErr result (is_one (map string_bytes words.now) ≡ true) }
{
    match words {
        [] => Ok(Some(None)),
        [word] => match K::read(alloc, word.as_str()) {
            Ok(key) => Ok(Some(Some(key))),
            Err(KeyError::Memory) => Err(Memory),
            Err(_) => Ok(None),
        },
        _ => Ok(None),
    }
}

/// What the words ask for: a decimal number of workers from 1 to 16, one of polls up to 1000, and
/// at most one key. `None` comes for other words. The only error is want of memory, which comes for
/// words with a key alone.
#[tactic(auto, unfolding(crate::specs::Words::watch_asked, crate::specs::Words::may_spell_key))]
pub fn watch_asked<K: Key>(alloc: Global, words: &[String]) -> Result<Option<Asked<K>>, Memory>
    ensures value { IfOk result
        (λ asked. asked ≡ watch_asked K.reading (map string_bytes words.now)) }
    ensures some { IfOk result (λ asked. IfSome asked (λ asked. 0 < asked.workers)) }
    ensures few { IfOk result (λ asked. IfSome asked (λ asked. asked.workers ≤ MOST_WORKERS)) }
    ensures polls { IfOk result (λ asked. IfSome asked (λ asked. asked.wanted ≤ MOST_POLLS)) }
    ensures err { OnErr result (may_spell_key (map string_bytes words.now) ≡ true) }
{
    let [workers, wanted, rest @ ..] = words else {
        return Ok(None);
    };
    let (Some(workers), Some(wanted)) = (u32::read(workers.as_str()), u32::read(wanted.as_str()))
    else {
        return Ok(None);
    };
    if workers < 1 || MOST_WORKERS < workers || MOST_POLLS < wanted {
        return Ok(None);
    }
    match key_asked(alloc, rest)? {
        Some(expr) => Ok(Some(Asked {
            workers,
            wanted,
            expr,
        })),
        None => Ok(None),
    }
}
