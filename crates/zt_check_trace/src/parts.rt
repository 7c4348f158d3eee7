//! An input cut into its script and the claimed transcript.
ghost use Rattle.std.specs.Prelude.{◌≡◌};
ghost use Rattle.std.specs.Option.{option_map};
ghost use Rattle.zt_check_trace.specs.Parts.{FindsLine, FindsParts, begins_with_mark};

use memchr::memchr;

// The line between a script and the claimed transcript.
const MARK: &[u8] = b"---";

/// The first line of a text, without its line feed, and what is behind it. None exactly where the
/// text has no line feed.
pub(crate) fn first_line(text: &[u8]) -> Option<(&[u8], &[u8])>
    ensures { FindsLine text.now (option_map (λ x. (x.0.now, x.1.now)) result) }
{
    let end = memchr(b'\n', text)?;
    Some((&text[..end], &text[end + 1..]))
}

/// Whether a text begins with `>`, as the line of a message does.
pub(crate) fn begins_with_mark(text: &[u8]) -> bool
    ensures { result ≡ begins_with_mark text.now }
{
    text.starts_with(b">")
}

/// The script and the claimed transcript of an input, which stand before and behind its first line
/// `---`. None exactly where there is no such line.
pub fn cut(input: &[u8]) -> Option<(&[u8], &[u8])>
    ensures { FindsParts input.now (option_map (λ x. (x.0.now, x.1.now)) result) }
{
    let mut start = 0;
    while let Some((line, behind)) = first_line(&input[start..]) {
        if line == MARK {
            return Some((&input[..start], behind));
        }
        start += line.len() + 1;
    }
    if &input[start..] == MARK {
        return Some((&input[..start], &[]));
    }
    None
}
