// What a field is read as.
ghost use Rattle.std.specs.Prelude.{◌≡◌, ◌≤◌, IfSome};
ghost use Rattle.std.specs.List.{list_any};
ghost use Rattle.zt_keys.specs.Key.{is_blank};
ghost use Rattle.zt_fields.specs.Fields.{Finds};
ghost use Rattle.zt_fields.specs.Values.{mode_of, bound_of, direction_of, interest_mode_of};
ghost use Rattle.zt_fields.specs.Values.{flag_of, zid_of, letter_bit, letters_after, options_of};
ghost use Rattle.zt_fields.specs.Values.{is_key_text, key_read};

use crate::numbers::hex_number;
use bitflags::Flags;
use std::alloc::Global;
use zt_keys::{Key, KeyError};
use zt_protocol::{InterestMode, InterestOptions, LineError};
use zt_region::{Bound, WhatAmI, Zid};

pub(crate) fn mode_of(text: &str) -> Option<WhatAmI>
    ensures { result ≡ mode_of text.now }
{
    match text {
        "router" => Some(WhatAmI::Router),
        "peer" => Some(WhatAmI::Peer),
        "client" => Some(WhatAmI::Client),
        _ => None,
    }
}

pub(crate) fn bound_of(text: &str) -> Option<Bound>
    ensures { result ≡ bound_of text.now }
{
    match text {
        "north" => Some(Bound::North),
        "south" => Some(Bound::South),
        _ => None,
    }
}

/// Whether a direction is back.
pub(crate) fn direction_of(text: &str) -> Option<bool>
    ensures { result ≡ direction_of text.now }
{
    match text {
        "fwd" => Some(false),
        "back" => Some(true),
        _ => None,
    }
}

pub(crate) fn interest_mode_of(text: &str) -> Option<InterestMode>
    ensures { result ≡ interest_mode_of text.now }
{
    match text {
        "current" => Some(InterestMode::Current),
        "future" => Some(InterestMode::Future),
        "current-future" => Some(InterestMode::CurrentFuture),
        _ => None,
    }
}

pub(crate) fn zid_of(text: &str) -> Option<Zid>
    ensures { result ≡ zid_of text.now }
{
    Some(Zid(hex_number(text.as_bytes())?))
}

pub(crate) fn flag_of(text: &str) -> Option<bool>
    ensures { result ≡ flag_of text.now }
{
    match text {
        "0" => Some(false),
        "1" => Some(true),
        _ => None,
    }
}

fn letter_bit(letter: u8) -> Option<u8>
    ensures value { result ≡ letter_bit letter }
    ensures bound { IfSome result (λ bit. bit ≤ 16) }
{
    match letter {
        b'k' => Some(1),
        b's' => Some(2),
        b'q' => Some(4),
        b't' => Some(8),
        b'a' => Some(16),
        _ => None,
    }
}

fn letters_of(letters: &[u8]) -> Option<u8>
    ensures { result ≡ letters_after 0 letters.now }
{
    let mut bits = 0;
    for letter in letters {
        let bit = letter_bit(*letter)?;
        if bit <= bits {
            return None;
        }
        bits += bit;
    }
    Some(bits)
}

pub(crate) fn options_of(text: &str) -> Option<InterestOptions>
    ensures { result ≡ options_of text.now }
{
    if text.is_empty() {
        return None;
    }
    if text == "-" {
        return Some(InterestOptions::from_bits_retain(0));
    }
    Some(InterestOptions::from_bits_retain(letters_of(text.as_bytes())?))
}

fn is_blank(byte: u8) -> bool
    ensures { result ≡ is_blank byte }
{
    byte == b' ' || byte == b'\t' || byte == b'\n' || byte == b'\r'
}

fn has_blank(text: &[u8]) -> bool
    ensures { result ≡ list_any is_blank text.now }
{
    for byte in text {
        if is_blank(*byte) {
            return true;
        }
    }
    false
}

fn is_key_text(text: &[u8]) -> bool
    ensures { result ≡ is_key_text text.now }
{
    !text.is_empty() && !has_blank(text)
}

/// The key that a field spells. The only other error is `Memory`.
pub(crate) fn key_read<K: Key>(alloc: Global, text: &str) -> Result<K, LineError>
    ensures { Finds (λ key. key) result (key_read K.reading text.now) }
{
    if !is_key_text(text.as_bytes()) {
        return Err(LineError::NotInGrammar);
    }
    match K::read(alloc, text) {
        Ok(key) => Ok(key),
        Err(KeyError::Memory) => Err(LineError::Memory),
        Err(_) => Err(LineError::NotInGrammar),
    }
}
