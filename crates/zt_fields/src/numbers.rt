// Numbers as a line spells them.
ghost use Rattle.std.specs.Prelude.{◌≡◌, ◌≤◌, IfSome, IsTrue};
ghost use Rattle.zt_fields.specs.Numbers.{is_unwritten, begins_with_zero, number_up_to, hex_number};
ghost use Rattle.zt_fields.specs.Numbers.{is_hex_digit, hex_value};

fn is_unwritten(text: &[u8]) -> bool
    ensures { result ≡ is_unwritten text.now }
{
    match text {
        [] => true,
        [_] => false,
        [first, ..] => *first == b'0',
    }
}

/// The number of at most `most` that a text spells in decimal.
#[tactic(auto, unfolding(crate::specs::Numbers::number_up_to))]
#[inline(always)]
pub(crate) fn number_up_to(text: &[u8], most: u64) -> Option<u64>
    ensures value { result ≡ number_up_to most text.now }
    ensures bound { IfSome result (λ number. number ≤ most) }
{
    if is_unwritten(text) {
        return None;
    }
    let mut number: u64 = 0;
    for byte in text {
        if !byte.is_ascii_digit() {
            return None;
        }
        number = number
            .checked_mul(10)?
            .checked_add(u64::from(*byte - b'0'))?;
    }
    if most < number {
        return None;
    }
    Some(number)
}

fn begins_with_zero(text: &[u8]) -> bool
    ensures { result ≡ begins_with_zero text.now }
{
    match text {
        [] => true,
        [first, ..] => *first == b'0',
    }
}

fn is_hex_digit(byte: u8) -> bool
    ensures { result ≡ is_hex_digit byte }
{
    byte.is_ascii_digit() || (b'a' <= byte && byte <= b'f')
}

fn hex_value(byte: u8) -> u8
    requires { IsTrue (is_hex_digit byte) }
    ensures { result ≡ hex_value byte }
{
    if byte <= b'9' {
        byte - b'0'
    } else {
        byte - b'a' + 10
    }
}

/// The number from 1 that a text of at most 32 digits spells in hexadecimal.
#[tactic(auto, unfolding(crate::specs::Numbers::hex_number))]
pub(crate) fn hex_number(text: &[u8]) -> Option<u128>
    ensures { result ≡ hex_number text.now }
{
    if begins_with_zero(text) {
        return None;
    }
    let mut number: u128 = 0;
    for byte in text {
        if !is_hex_digit(*byte) {
            return None;
        }
        number = number
            .checked_mul(16)?
            .checked_add(u128::from(hex_value(*byte)))?;
    }
    Some(number)
}
