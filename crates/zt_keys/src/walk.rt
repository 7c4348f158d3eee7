// Whether two key expressions match, by a walk over their texts that takes no memory.
//
// A text is walked chunk by chunk; an empty rest has no chunk left. A segment is what stands before
// the next chunk that begins with `@`, which no wildcard takes.
//
// The cost: to pass a `**`, the rests of the two segments are scanned, and where a place is looked
// for, a walk begins at most once at each chunk of one text and goes along the other up to its next
// `**`. Each pass but the last leaves a chunk of both texts behind. So the chunks looked at are at
// most a fixed multiple of the product of the two numbers of chunks.
ghost use Rattle.std.specs.Prelude.{◌≡◌, [], ◌∷◌, ◌++◌, ◌+◌, ◌-◌, ◌<◌, ◌≤◌, ◌==◌, length, drop};
ghost use Rattle.std.specs.Prelude.{position, get_or, IfSome, false};
ghost use Rattle.std.specs.List.{list_any};
ghost use Rattle.std.specs.Option.{option_map};
ghost use Rattle.zt_keys.specs.Chunks.{is_double, is_single};
ghost use Rattle.zt_keys.specs.Parts.{many, part_of, meets, is_marked, parts_match};
ghost use Rattle.zt_keys.specs.Walking.{walked, walked_one, walked_two, width, last_many};
ghost use Rattle.zt_keys.specs.Walking.{GoesOn};
ghost use Rattle.zt_keys.specs.Walking.{after_many, stops, strip, find_place, is_slash, NoLonger};

// Where the first `/` stands.
fn find_slash(rest: &[u8]) -> Option<usize>
    ensures { result ≡ position (λ b. b == 47) rest.now }
{
    rest.iter().position(|b| *b == b'/')
}

// The first chunk, and what follows the `/` behind it.
pub(crate) fn next_chunk(rest: &[u8]) -> (&[u8], &[u8])
    requires { 0 < length rest.now }
    ensures chunk { walked rest.now ≡ part_of result.0.now ∷ walked result.1.now }
    ensures shorter { length result.1.now < length rest.now }
{
    match find_slash(rest) {
        Some(end) => (&rest[..end], &rest[end + 1..]),
        None => (rest, &[]),
    }
}

pub(crate) fn is_double(chunk: &[u8]) -> bool
    ensures { result ≡ is_double chunk.now }
{
    chunk.len() == 2 && chunk[0] == b'*' && chunk[1] == b'*'
}

pub(crate) fn is_single(chunk: &[u8]) -> bool
    ensures { result ≡ is_single chunk.now }
{
    chunk.len() == 1 && chunk[0] == b'*'
}

fn is_marked(chunk: &[u8]) -> bool
    ensures { result ≡ is_marked chunk.now }
{
    !chunk.is_empty() && chunk[0] == b'@'
}

// Whether some chunk is taken by both.
fn meets(a: &[u8], b: &[u8]) -> bool
    requires first { is_double a.now ≡ false }
    requires second { is_double b.now ≡ false }
    ensures { result ≡ meets (part_of a.now) (part_of b.now) }
{
    if is_single(a) {
        return !is_marked(b);
    }
    if is_single(b) {
        return !is_marked(a);
    }
    a == b
}

// What follows the `**` that comes next.
fn after_double(rest: &[u8]) -> Option<&[u8]>
    ensures rest { option_map walked_one result ≡ after_many (walked rest.now) }
    ensures shorter { IfSome result (λ after. length after.now < length rest.now) }
{
    if rest.is_empty() {
        return None;
    }
    let (chunk, after) = next_chunk(rest);
    if is_double(chunk) { Some(after) } else { None }
}

// Whether a walk stops here: the text has ended or goes on with `**`.
fn stops(rest: &[u8]) -> bool
    ensures { result ≡ stops (walked rest.now) }
{
    rest.is_empty() || after_double(rest).is_some()
}

// How many bytes both texts begin with alike, in whole chunks without wildcards. These meet one by
// one, and are compared byte by byte, since that is much less work than chunk by chunk.
fn common_len(first: &[u8], second: &[u8]) -> usize
    ensures within { (result ≤ length first.now) × (result ≤ length second.now) }
    ensures rest { strip (walked (drop result first.now)) (walked (drop result second.now))
        ≡ strip (walked first.now) (walked second.now) }
{
    let mut end = 0;
    for (place, byte) in first.iter().enumerate() {
        if place >= second.len() || *byte != second[place] || *byte == b'*' {
            return end;
        }
        if *byte == b'/' {
            end = place + 1;
        }
    }
    end
}

// Both texts without the chunks that they begin with alike.
fn skip_common<'a>(first: &'a [u8], second: &'a [u8]) -> (&'a [u8], &'a [u8])
    ensures rest { strip (walked result.0.now) (walked result.1.now)
        ≡ strip (walked first.now) (walked second.now) }
    ensures first { length result.0.now ≤ length first.now }
    ensures second { length result.1.now ≤ length second.now }
{
    let end = common_len(first, second);
    (&first[end..], &second[end..])
}

// Walks both texts while their chunks meet one by one, up to the first `**` of either or the end of
// both.
fn walk<'a>(first: &'a [u8], second: &'a [u8]) -> Option<(&'a [u8], &'a [u8])>
    ensures rest { option_map walked_two result ≡ strip (walked first.now) (walked second.now) }
    ensures shorter { NoLonger result first.now second.now }
{
    let mut a = first;
    let mut b = second;
    while !a.is_empty() && !b.is_empty() {
        let (x, after_x) = next_chunk(a);
        let (y, after_y) = next_chunk(b);
        if is_double(x) || is_double(y) {
            return Some((a, b));
        }
        if !meets(x, y) {
            return None;
        }
        let (rest_x, rest_y) = skip_common(after_x, after_y);
        a = rest_x;
        b = rest_y;
    }
    if stops(a) && stops(b) {
        return Some((a, b));
    }
    None
}

// What follows the last `**` of the segment.
fn after_last_double(text: &[u8]) -> Option<&[u8]>
    ensures last { option_map walked_one result ≡ last_many (walked text.now) }
    ensures shorter { IfSome result (λ rest. length rest.now ≤ length text.now) }
{
    let mut rest = text;
    let mut last = None;
    while !rest.is_empty() {
        let (chunk, after) = next_chunk(rest);
        if is_marked(chunk) {
            return last;
        }
        if is_double(chunk) {
            last = Some(after);
        }
        rest = after;
    }
    last
}

// How many chunks the segment has.
fn segment_len(text: &[u8]) -> usize
    ensures { result ≡ width (walked text.now) }
{
    let mut rest = text;
    let mut count = 0;
    while !rest.is_empty() {
        let (chunk, after) = next_chunk(rest);
        if is_marked(chunk) {
            return count;
        }
        count += 1;
        rest = after;
    }
    count
}

// The text behind its segment.
fn after_segment(text: &[u8]) -> &[u8]
    ensures rest { walked result.now ≡ drop (width (walked text.now)) (walked text.now) }
    ensures shorter { length result.now ≤ length text.now }
{
    let mut rest = text;
    while !rest.is_empty() {
        let (chunk, after) = next_chunk(rest);
        if is_marked(chunk) {
            return rest;
        }
        rest = after;
    }
    rest
}

// The text behind its first `count` chunks.
fn skip_chunks(text: &[u8], count: usize) -> &[u8]
    ensures rest { walked result.now ≡ drop count (walked text.now) }
    ensures shorter { length result.now ≤ length text.now }
{
    let mut rest = text;
    for _ in 0..count {
        if rest.is_empty() {
            return rest;
        }
        let (_, after) = next_chunk(rest);
        rest = after;
    }
    rest
}

// The first place of the second text at which the first fits up to its next `**`, and what is left
// of both behind it.
fn find_place<'a>(first: &'a [u8], second: &'a [u8]) -> Option<(&'a [u8], &'a [u8])>
    ensures rest { option_map walked_two result
        ≡ find_place (walked first.now) (walked second.now) }
    ensures shorter { NoLonger result first.now second.now }
{
    let mut rest = second;
    while !rest.is_empty() {
        let found = walk(first, rest);
        if found.is_some() {
            return found;
        }
        let (chunk, after) = next_chunk(rest);
        if is_marked(chunk) {
            return None;
        }
        rest = after;
    }
    walk(first, rest)
}

// Both texts without the chunks by which the segment of one is longer than that of the other.
fn align<'a>(first: &'a [u8], second: &'a [u8]) -> (&'a [u8], &'a [u8])
    ensures first { walked result.0.now
        ≡ drop (width (walked first.now) - width (walked second.now)) (walked first.now) }
    ensures second { walked result.1.now
        ≡ drop (width (walked second.now) - width (walked first.now)) (walked second.now) }
    ensures shorter { (length result.0.now ≤ length first.now)
        × (length result.1.now ≤ length second.now) }
{
    let first_len = segment_len(first);
    let second_len = segment_len(second);
    (
        skip_chunks(first, first_len.saturating_sub(second_len)),
        skip_chunks(second, second_len.saturating_sub(first_len)),
    )
}

// Goes on behind a `**`: `first` is what follows it, and `second` is what stands against it.
fn pass_double<'a>(first: &'a [u8], second: &'a [u8]) -> Option<(&'a [u8], &'a [u8])>
    ensures rest { GoesOn result (many ∷ walked first.now) (walked second.now) }
    ensures shorter { NoLonger result first.now second.now }
{
    if first.is_empty() {
        return Some((first, after_segment(second)));
    }
    let first_last = after_last_double(first);
    if let Some(second_last) = after_last_double(second) {
        return Some(align(first_last.unwrap_or(first), second_last));
    }
    if first_last.is_some() {
        return find_place(first, second);
    }
    let first_len = segment_len(first);
    let second_len = segment_len(second);
    if first_len > second_len {
        return None;
    }
    Some((first, skip_chunks(second, second_len - first_len)))
}

// Whether the two texts match, by a walk along both.
fn walk_all(first: &[u8], second: &[u8]) -> bool
    ensures { result ≡ parts_match (walked first.now) (walked second.now) }
{
    let mut a = first;
    let mut b = second;
    while let Some((x, y)) = walk(a, b) {
        let passed = if let Some(behind) = after_double(x) {
            pass_double(behind, y)
        } else if let Some(behind) = after_double(y) {
            pass_double(behind, x)
        } else {
            return true;
        };
        let Some((rest_a, rest_b)) = passed else {
            return false;
        };
        a = rest_a;
        b = rest_b;
    }
    false
}

// Where the last chunk begins. Nothing before it is read.
pub(crate) fn last_start(text: &[u8]) -> usize
    ensures within { result ≤ length text.now }
    ensures slashless { list_any is_slash (drop result text.now) ≡ false }
    ensures slash { 0 < result → get_or text.now (result - 1) 0 ≡ 47 }
{
    let mut start = text.len();
    while start > 0 && text[start - 1] != b'/' {
        start -= 1;
    }
    start
}

// The last chunk, and what stands before the `/` in front of it. None where that isn't plain to
// see: the text is one chunk, or an empty chunk is the last or the last but one.
fn split_last(text: &[u8]) -> Option<(&[u8], &[u8])>
    ensures last { IfSome result
        (λ last. walked text.now ≡ walked last.0.now ++ part_of last.1.now ∷ []) }
    ensures shorter { IfSome result (λ last. length last.0.now < length text.now) }
{
    let start = last_start(text);
    if start < 2 || start == text.len() || text[start - 2] == b'/' {
        return None;
    }
    Some((&text[..start - 1], &text[start..]))
}

// Whether the chunks at the ends of both texts meet one by one, back to the last `**` of either or as
// far as they are plain to see. Where they don't, the texts don't match: most that don't are told
// apart so, by a few chunks.
fn do_ends_meet(first: &[u8], second: &[u8]) -> bool
    ensures { result ≡ false → parts_match (walked first.now) (walked second.now) ≡ false }
{
    let mut a = first;
    let mut b = second;
    while let (Some((before_a, x)), Some((before_b, y))) = (split_last(a), split_last(b)) {
        if is_double(x) || is_double(y) {
            return true;
        }
        if !meets(x, y) {
            return false;
        }
        a = before_a;
        b = before_b;
    }
    true
}

// Whether `**` alone matches the text: so it does unless a chunk begins with `@`.
fn is_free(text: &[u8]) -> bool
    ensures { result ≡ parts_match (many ∷ []) (walked text.now) }
{
    after_segment(text).is_empty()
}

// Whether the two texts match. One that is `**` needs no walk along both.
pub(crate) fn texts_match(first: &[u8], second: &[u8]) -> bool
    ensures { result ≡ parts_match (walked first.now) (walked second.now) }
{
    if is_double(first) {
        return is_free(second);
    }
    if is_double(second) {
        return is_free(first);
    }
    let Some((a, b)) = walk(first, second) else {
        return false;
    };
    do_ends_meet(a, b) && walk_all(a, b)
}
