// The front of a line, up to a message's key. It is put together in place, so that the text grows
// once for all of it.
ghost use Rattle.std.specs.Prelude.{◌≡◌, ◌+◌, ◌<◌, ◌≤◌, ◌++◌, ◌∷◌, [], decimal, codes, length};
ghost use Rattle.std.specs.Prelude.{if◌then◌else◌};
ghost use Rattle.std.specs.Option.{option_copied};
ghost use Rattle.arrayvec.specs.ArrayString.{array_string_len};
ghost use Rattle.zt_protocol.specs.Interest.{has_bits};
ghost use Rattle.zt_text.specs.Text.{spaced};
ghost use Rattle.zt_text.specs.Front.{fields_before, front_text, key_of};
ghost use Rattle.zt_text.specs.Sent.{NumbersFit, SentFits};
ghost use Rattle.zt_fields.specs.Spellings.{letters_of, options_text};
ghost use Rattle.zt_fields.specs.Spellings.{interest_mode_text, flag_text};

use arrayvec::ArrayString;
use bitflags::Flags;
use itoa::Buffer;
use zt_protocol::{InterestMode, InterestOptions, Message, QueryableInfo, Sent};

/// The room for the front of a line, and for a short line before it.
pub(crate) const ROOM: usize = 192;

// Numbers below it are printed digit by digit, which costs less than a text of their own.
const SHORT: u64 = 10_000;

#[inline(always)]
fn put_digit(head: &mut ArrayString<ROOM>, digit: u64)
    requires digit { digit < 10 }
    requires room { array_string_len head.old < ROOM }
    ensures { head.new.bytes ≡ head.old.bytes ++ (48 + digit) ∷ [] }
{
    head.push(char::from(b'0' + digit as u8));
}

#[inline(always)]
fn put_pair(head: &mut ArrayString<ROOM>, number: u64)
    requires pair { number < 100 }
    requires room { array_string_len head.old + 2 ≤ ROOM }
    ensures bytes { head.new.bytes ≡ head.old.bytes ++ decimal number }
    ensures len { array_string_len head.new ≤ array_string_len head.old + 2 }
{
    if number < 10 {
        put_digit(head, number);
        return;
    }
    put_digit(head, number / 10);
    put_digit(head, number % 10);
}

#[inline(always)]
fn put_short(head: &mut ArrayString<ROOM>, number: u64)
    requires short { number < SHORT }
    requires room { array_string_len head.old + 4 ≤ ROOM }
    ensures bytes { head.new.bytes ≡ head.old.bytes ++ decimal number }
    ensures len { array_string_len head.new ≤ array_string_len head.old + 4 }
{
    if number < 100 {
        put_pair(head, number);
        return;
    }
    let rest = number % 100;
    put_pair(head, number / 100);
    put_digit(head, rest / 10);
    put_digit(head, rest % 10);
}

#[inline(never)]
fn long_digits(buffer: &mut Buffer, number: u64) -> &str
    ensures digits { result.now ≡ decimal number }
    ensures len { length result.now ≤ 20 }
{
    buffer.format(number)
}

/// Adds the digits of a number. Most numbers are short.
#[inline(always)]
pub(crate) fn put_digits(head: &mut ArrayString<ROOM>, number: u64)
    requires { array_string_len head.old + 20 ≤ ROOM }
    ensures bytes { head.new.bytes ≡ head.old.bytes ++ decimal number }
    ensures len { array_string_len head.new ≤ array_string_len head.old + 20 }
{
    if number < SHORT {
        put_short(head, number);
        return;
    }
    let mut buffer = Buffer::new();
    head.push_str(long_digits(&mut buffer, number));
}

/// Adds a number as a field.
#[inline(always)]
fn put_number(head: &mut ArrayString<ROOM>, number: u64)
    requires { array_string_len head.old + 21 ≤ ROOM }
    ensures bytes { head.new.bytes ≡ head.old.bytes ++ spaced (decimal number ∷ []) }
    ensures len { array_string_len head.new ≤ array_string_len head.old + 21 }
{
    head.push(' ');
    put_digits(head, number);
}

#[inline(always)]
fn put_letter(
    head: &mut ArrayString<ROOM>,
    options: InterestOptions,
    bit: InterestOptions,
    letter: &str,
)
    requires letter { length letter.now ≡ 1 }
    requires room { array_string_len head.old < ROOM }
    ensures bytes { head.new.bytes
        ≡ head.old.bytes ++ (if has_bits bit.0 options then letter.now else []) }
    ensures len { array_string_len head.new ≤ array_string_len head.old + 1 }
{
    if options.contains(bit) {
        head.push_str(letter);
    }
}

#[inline(always)]
fn put_letters(head: &mut ArrayString<ROOM>, options: InterestOptions)
    requires { array_string_len head.old + 5 ≤ ROOM }
    ensures bytes { head.new.bytes ≡ head.old.bytes ++ letters_of options }
    ensures len { array_string_len head.new ≤ array_string_len head.old + 5 }
{
    put_letter(head, options, InterestOptions::KEYEXPRS, "k");
    put_letter(head, options, InterestOptions::SUBSCRIBERS, "s");
    put_letter(head, options, InterestOptions::QUERYABLES, "q");
    put_letter(head, options, InterestOptions::TOKENS, "t");
    put_letter(head, options, InterestOptions::AGGREGATE, "a");
}

#[inline(always)]
fn put_options(head: &mut ArrayString<ROOM>, options: InterestOptions)
    requires { array_string_len head.old + 6 ≤ ROOM }
    ensures bytes { head.new.bytes ≡ head.old.bytes ++ spaced (options_text options ∷ []) }
    ensures len { array_string_len head.new ≤ array_string_len head.old + 6 }
{
    if options.bits() & 31 == 0 {
        head.push_str(" -");
        return;
    }
    head.push(' ');
    put_letters(head, options);
}

#[inline(always)]
fn put_interest_mode(head: &mut ArrayString<ROOM>, mode: InterestMode)
    requires { array_string_len head.old + 15 ≤ ROOM }
    ensures bytes { head.new.bytes ≡ head.old.bytes ++ spaced (interest_mode_text mode ∷ []) }
    ensures len { array_string_len head.new ≤ array_string_len head.old + 15 }
{
    match mode {
        InterestMode::Current => head.push_str(" current"),
        InterestMode::Future => head.push_str(" future"),
        InterestMode::CurrentFuture => head.push_str(" current-future"),
    }
}

#[inline(always)]
fn put_interest(head: &mut ArrayString<ROOM>, id: u32, mode: InterestMode, options: InterestOptions)
    requires { array_string_len head.old + 80 ≤ ROOM }
    ensures bytes { head.new.bytes ≡ head.old.bytes
        ++ spaced (codes "interest" ∷ decimal id ∷ interest_mode_text mode
        ∷ options_text options ∷ []) }
    ensures len { array_string_len head.new ≤ array_string_len head.old + 80 }
{
    head.push_str(" interest");
    put_number(head, u64::from(id));
    put_interest_mode(head, mode);
    put_options(head, options);
}

#[inline(always)]
fn put_queryable(head: &mut ArrayString<ROOM>, interest_id: u32, id: u32, info: QueryableInfo)
    requires { array_string_len head.old + 80 ≤ ROOM }
    ensures bytes { head.new.bytes ≡ head.old.bytes
        ++ spaced (codes "queryable" ∷ decimal interest_id ∷ decimal id ∷ flag_text info.complete
        ∷ decimal info.distance ∷ []) }
    ensures len { array_string_len head.new ≤ array_string_len head.old + 80 }
    ensures distance { info.distance ≤ 65535 }
{
    head.push_str(" queryable");
    put_number(head, u64::from(interest_id));
    put_number(head, u64::from(id));
    head.push_str(if info.complete { " 1" } else { " 0" });
    put_number(head, u64::from(info.distance));
}

// Adds a word and two numbers as fields.
#[inline(always)]
fn put_two(head: &mut ArrayString<ROOM>, word: &str, one: u32, two: u32)
    requires word { length word.now ≤ 15 }
    requires room { array_string_len head.old + 57 ≤ ROOM }
    ensures bytes { head.new.bytes ≡ head.old.bytes
        ++ (word.now ++ spaced (decimal one ∷ decimal two ∷ [])) }
    ensures len { array_string_len head.new ≤ array_string_len head.old + 57 }
    ensures one { one ≤ 4294967295 }
    ensures two { two ≤ 4294967295 }
{
    head.push_str(word);
    put_number(head, u64::from(one));
    put_number(head, u64::from(two));
}

// Adds a word and a number as fields.
#[inline(always)]
fn put_one(head: &mut ArrayString<ROOM>, word: &str, number: u32)
    requires word { length word.now ≤ 15 }
    requires room { array_string_len head.old + 36 ≤ ROOM }
    ensures bytes { head.new.bytes ≡ head.old.bytes
        ++ (word.now ++ spaced (decimal number ∷ [])) }
    ensures len { array_string_len head.new ≤ array_string_len head.old + 36 }
{
    head.push_str(word);
    put_number(head, u64::from(number));
}

// Adds the fields of a message before its key, and returns the key, if it has one.
#[inline(always)]
fn put_fields<'a, K>(head: &mut ArrayString<ROOM>, message: &'a Message<K>) -> Option<&'a K>
    requires { array_string_len head.old + 80 ≤ ROOM }
    ensures key { option_copied result ≡ key_of message.now }
    ensures bytes { head.new.bytes ≡ head.old.bytes ++ spaced (fields_before message.now) }
    ensures len { array_string_len head.new ≤ array_string_len head.old + 80 }
    ensures fit { NumbersFit message.now }
{
    match message {
        Message::DeclareToken {
            id,
            expr,
            interest_id: None,
            node_id,
        } => {
            put_two(head, " token", *id, u32::from(*node_id));
            Some(expr)
        }
        Message::DeclareToken {
            id,
            expr,
            interest_id: Some(interest_id),
            node_id,
        } => {
            put_two(head, " answer", *interest_id, *id);
            put_number(head, u64::from(*node_id));
            Some(expr)
        }
        Message::UndeclareToken { id, expr, node_id } => {
            put_two(head, " untoken", *id, u32::from(*node_id));
            expr.as_ref()
        }
        Message::DeclareFinal { interest_id } => {
            put_one(head, " final", *interest_id);
            None
        }
        Message::Interest {
            id,
            mode,
            options,
            expr,
        } => {
            put_interest(head, *id, *mode, *options);
            expr.as_ref()
        }
        Message::InterestFinal { id } => {
            put_one(head, " interest-final", *id);
            None
        }
        Message::DeclareSubscriber {
            id,
            expr,
            interest_id,
        } => {
            put_two(head, " subscriber", *interest_id, *id);
            Some(expr)
        }
        Message::DeclareQueryable {
            id,
            expr,
            info,
            interest_id,
        } => {
            put_queryable(head, *interest_id, *id, *info);
            Some(expr)
        }
    }
}

/// Adds a message's line up to its key, and returns the key, if it has one.
#[inline(always)]
pub(crate) fn put_front<'a, K>(head: &mut ArrayString<ROOM>, sent: &'a Sent<K>) -> Option<&'a K>
    requires { array_string_len head.old + 137 ≤ ROOM }
    ensures key { option_copied result ≡ key_of sent.now.message }
    ensures bytes { head.new.bytes ≡ head.old.bytes ++ front_text sent.now }
    ensures len { array_string_len head.new ≤ array_string_len head.old + 137 }
    ensures fit { SentFits sent.now }
{
    put_two(head, ">", sent.gateway, sent.face);
    put_fields(head, &sent.message)
}
