// What no clause says: tables of texts and pairs, long expressions, and each call through the trait
// at `KeyExpr`. A table is walked by a function that gives the first row that is wrong: an assertion
// for each row would be proved for each row.
ghost use Rattle.std.specs.Prelude.{◌≡◌, IfOk, IfErr};

use std::alloc::{AllocError, Global};
use std::hash::{DefaultHasher, Hash, Hasher};
use std::test::Fail;
use zt_keys::{Anchor, Key, KeyError, KeyExpr};

const READ: [&str; 11] = [
    "a/b", "*", "**", "a/**/b", "*/**", "**/a", "@x/*", "é/ü", "a/*/*/b", "**/a/**", "@/a@",
];

const REFUSED: [(&str, KeyError); 19] = [
    ("", KeyError::Empty),
    ("/", KeyError::BadChunk(0)),
    ("/a", KeyError::BadChunk(0)),
    ("a/", KeyError::BadChunk(2)),
    ("a//b", KeyError::BadChunk(2)),
    ("a/b*", KeyError::BadChunk(2)),
    ("a$*", KeyError::BadChunk(0)),
    ("***", KeyError::BadChunk(0)),
    ("a/**b", KeyError::BadChunk(2)),
    ("ab/c d", KeyError::BadChunk(3)),
    ("a#b/c", KeyError::BadChunk(0)),
    ("é/b?", KeyError::BadChunk(3)),
    ("a/\u{7f}", KeyError::BadChunk(2)),
    ("a/b\n", KeyError::BadChunk(2)),
    ("**/**/a*", KeyError::BadChunk(6)),
    ("**/**", KeyError::NotCanonical(0)),
    ("a/**/*", KeyError::NotCanonical(2)),
    ("a/**/b/**/**", KeyError::NotCanonical(7)),
    ("**/*/**/**", KeyError::NotCanonical(0)),
];

const MATCHING: [(&str, &str); 28] = [
    ("a/*", "*/b"),
    ("a/**", "a"),
    ("a/**/c", "a/*/b/c"),
    ("*", "**"),
    ("@x/*", "@x/a"),
    ("a/b", "a/b"),
    ("**", "a/b/c"),
    ("a/**", "**/b"),
    ("a/**/b", "a/b"),
    ("**/b/**", "a/b/c"),
    ("**/b/**/d", "a/b/c/b/d"),
    ("**/b/c/**", "a/b/b/c"),
    ("**/b/c/**/c/**", "a/b/c/c"),
    ("*/**", "a"),
    ("*/*/**", "a/b/c"),
    ("*/*", "**"),
    ("**/@x/**", "a/@x/b"),
    ("**/@x", "@x"),
    ("@x/**/@y/**", "@x/a/@y/b"),
    ("a/**/@x/**/b", "a/c/@x/d/b"),
    ("a/**/@x/b", "a/**/@x/**"),
    ("a/**/c/**/e", "**/b/**/d/**"),
    ("a/b/**", "**/c/a/b/c"),
    ("**/a/*/b", "a/a/a/b"),
    ("**/a/b", "a/b/a/b"),
    ("*/b/**/c", "**/b/c"),
    ("a/*/**/d", "a/b/d"),
    ("é/*", "é/ü"),
];

const APART: [(&str, &str); 23] = [
    ("a/*", "a"),
    ("**/b", "a/b/c"),
    ("*", "a/b"),
    ("*", "@x"),
    ("**", "@x/a"),
    ("a/b", "a/c"),
    ("a", "a/b"),
    ("a/**", "b/**"),
    ("**/a", "**/b"),
    ("a/**/b", "a"),
    ("a/**/b", "c/**/b"),
    ("**/b/**", "a/c"),
    ("**/b/c/**/c/**", "a/b/c"),
    ("*/*", "a"),
    ("**/@x/**", "a/b"),
    ("**/@x/*", "a/@x"),
    ("@x/**", "@y/**"),
    ("@x/**/a", "@x/b/@y/a"),
    ("**/@x/**", "**/@y/**"),
    ("a/**/c", "**/b/c/d"),
    ("**/a/*/b", "a/b"),
    ("a/*/**/d", "a/d"),
    ("@x", "x"),
];

/// A text so many times and then another, both for two keys, and whether the keys match.
type LongPair = (
    (&'static str, u32, &'static str),
    (&'static str, u32, &'static str),
    bool,
);

const LONG: [LongPair; 11] = [
    (("**/a/", 500, "b"), ("**/a/", 500, "c"), false),
    (("**/a/", 500, "b"), ("a/", 1000, "b"), true),
    (("**/a/", 500, "b"), ("a/", 1000, "c"), false),
    (("**/a/", 500, "b"), ("a/", 499, "b"), false),
    (("**/a/b/", 300, "**"), ("a/", 1000, "b"), false),
    (("**/a/*/b/", 200, "**"), ("a/", 2000, "a"), false),
    (("**/@x/", 300, "**"), ("a/@x/", 300, "a"), true),
    (("**/@x/", 300, "**"), ("a/@x/", 300, "@y"), false),
    (("a/**/", 300, "b"), ("**/a/", 300, "b"), true),
    (("a/**/", 300, "b"), ("**/a/", 300, "c"), false),
    (("**/a/a/a/b/", 100, "**"), ("a/a/a/a/", 500, "b"), false),
];

// Fails with the row that is wrong.
fn pass(wrong: Option<&'static str>) -> Result<(), Fail> {
    match wrong {
        None => Ok(()),
        Some(text) => Err(text.into()),
    }
}

// A key's printed text is read as the key, by the laws alone.
fn read_back<K: Key>(alloc: Global, key: &K) -> Result<K, KeyError>
    ensures back { IfOk result (λ back. back ≡ key.now) }
    ensures memory { IfErr result (λ error. error ≡ KeyError.Memory) }
{
    let text = key.print(alloc)?;
    K::read(alloc, text.as_str())
}

fn is_read(alloc: Global, text: &str) -> Result<bool, KeyError> {
    let key = KeyExpr::read(alloc, text)?;
    let back = read_back(alloc, &key)?;
    Ok(back.text() == text)
}

fn first_unread(alloc: Global, texts: &[&'static str]) -> Option<&'static str> {
    for text in texts {
        match is_read(alloc, text) {
            Ok(true) => {}
            _ => return Some(text),
        }
    }
    None
}

fn first_read(alloc: Global, rows: &[(&'static str, KeyError)]) -> Option<&'static str> {
    for (text, error) in rows {
        if KeyExpr::read(alloc, text).err() != Some(*error) {
            return Some(text);
        }
    }
    None
}

#[test]
fn texts_are_read(rt: HostRuntime) -> Result<(), Fail> {
    pass(first_unread(rt.alloc(), &READ))?;
    pass(first_read(rt.alloc(), &REFUSED))
}

fn both_match(alloc: Global, first: &str, second: &str) -> Result<bool, KeyError> {
    let first = KeyExpr::read(alloc, first)?;
    let second = KeyExpr::read(alloc, second)?;
    Ok(first.matches(&second) && second.matches(&first))
}

fn first_unlike(
    alloc: Global,
    rows: &[(&'static str, &'static str)],
    wanted: bool,
) -> Option<&'static str> {
    for (first, second) in rows {
        if both_match(alloc, first, second) != Ok(wanted) {
            return Some(first);
        }
    }
    None
}

#[test]
fn expressions_match(rt: HostRuntime) -> Result<(), Fail> {
    pass(first_unlike(rt.alloc(), &MATCHING, true))?;
    pass(first_unlike(rt.alloc(), &APART, false))
}

// The text `part`, `count` times, and then `end`.
fn repeated(alloc: Global, part: &str, count: u32, end: &str) -> Result<String, AllocError> {
    let mut text = String::new(alloc);
    for _ in 0..count {
        text.push_str(part)?;
    }
    text.push_str(end)?;
    Ok(text)
}

fn do_long_match(alloc: Global, row: &LongPair) -> Result<bool, KeyError> {
    let (first, second, _) = row;
    let first = repeated(alloc, first.0, first.1, first.2)?;
    let second = repeated(alloc, second.0, second.1, second.2)?;
    both_match(alloc, first.as_str(), second.as_str())
}

// A walk that tried every way of each `**` would never end here.
#[test]
fn long_expressions_end(rt: HostRuntime) -> Result<(), Fail> {
    for row in &LONG {
        if do_long_match(rt.alloc(), row) != Ok(row.2) {
            return Err(row.0.0.into());
        }
    }
    Ok(())
}

fn is_copied(alloc: Global) -> Result<bool, KeyError> {
    let key = KeyExpr::read(alloc, "a/*/b")?;
    let copy = key.copy(alloc)?;
    Ok(key == copy && key < KeyExpr::read(alloc, "a/b")?)
}

fn is_printed(alloc: Global) -> Result<bool, KeyError> {
    let key = KeyExpr::read(alloc, "a/*/b")?;
    let mut out = String::from_str(alloc, "> ")?;
    key.print_to(&mut out)?;
    Ok(out.as_str() == "> a/*/b")
}

#[test]
fn keys_are_copied_and_printed(rt: HostRuntime) -> Result<(), Fail> {
    assert!(rt; is_copied(rt.alloc())?);
    assert!(rt; is_printed(rt.alloc())?);
    Ok(())
}

// The numbers of the expression at the anchors, through the trait.
fn numbers<K: Key>(alloc: Global, text: &str) -> Result<[Option<u64>; 4], KeyError> {
    let key = K::read(alloc, text)?;
    let copy = key.copy(alloc)?;
    Ok([
        key.anchor(Anchor::Whole),
        key.anchor(Anchor::First),
        key.anchor(Anchor::FirstTwo),
        copy.anchor(Anchor::Last),
    ])
}

fn first_misnumbered(
    alloc: Global,
    rows: &[(&'static str, [Option<u64>; 4])],
) -> Option<&'static str> {
    for (text, wanted) in rows {
        if numbers::<KeyExpr>(alloc, text) != Ok(*wanted) {
            return Some(text);
        }
    }
    None
}

// Whether all four numbers are there, and those of other chunks are others.
fn are_apart(whole: Option<u64>, first: Option<u64>, two: Option<u64>, last: Option<u64>) -> bool {
    let are_there = whole.is_some() && first.is_some() && two.is_some() && last.is_some();
    are_there && whole != first && first != two && two != whole && first != last
}

#[test]
fn keys_have_numbers(rt: HostRuntime) -> Result<(), Fail> {
    let [whole, first, two, last] = numbers::<KeyExpr>(rt.alloc(), "a/b/w")?;
    assert!(rt; are_apart(whole, first, two, last));
    let [pair, _, pair_two, _] = numbers::<KeyExpr>(rt.alloc(), "a/b")?;
    assert!(rt; pair == two && pair_two == two);
    pass(first_misnumbered(
        rt.alloc(),
        &[
            ("a/b/w", [whole, first, two, last]),
            ("w", [last, last, last, last]),
            ("a/b/**", [None, first, two, None]),
            ("a/b/*/w", [None, first, two, last]),
            ("*/*/w", [None, None, None, last]),
            ("a/**", [None, first, None, None]),
            ("a/*/w", [None, first, None, last]),
            ("**", [None, None, None, None]),
        ],
    ))
}

const CHUNKS: [(&str, usize, bool); 8] = [
    ("**/a/**", 1, true),
    ("a/*/w", 2, true),
    ("*/a/b/**", 3, true),
    ("**/b/w", 3, true),
    ("a/b/w", 5, true),
    ("*/**", 0, true),
    ("**/b/a/**", 3, false),
    ("**/w/x", 3, false),
];

// The numbers of the expression's chunks, through the trait.
fn chunk_numbers<K: Key>(alloc: Global, text: &str) -> Result<Vec<u64>, KeyError> {
    let key = K::read(alloc, text)?;
    let numbers = key.numbers(alloc)?;
    Ok(numbers)
}

// How many numbers the chunks of the text have, and whether all are among those of `a/b/w`.
fn chunks_within(alloc: Global, text: &str) -> Result<(usize, bool), KeyError> {
    let whole = chunk_numbers::<KeyExpr>(alloc, "a/b/w")?;
    let numbers = chunk_numbers::<KeyExpr>(alloc, text)?;
    for number in &numbers {
        if !whole.contains(number) {
            return Ok((numbers.len(), false));
        }
    }
    Ok((numbers.len(), true))
}

#[test]
fn chunks_have_numbers(rt: HostRuntime) -> Result<(), Fail> {
    for (text, count, are_of_whole) in &CHUNKS {
        if chunks_within(rt.alloc(), text) != Ok((*count, *are_of_whole)) {
            return Err((*text).into());
        }
    }
    Ok(())
}

fn hash_value(key: &KeyExpr) -> u64 {
    let mut hasher = DefaultHasher::new();
    key.hash(&mut hasher);
    hasher.finish()
}

// Whether a key of this text has it, is the same as another of it, and another than one of another.
fn is_kept(alloc: Global, text: &str, other: &str) -> Result<bool, KeyError> {
    let key = KeyExpr::read(alloc, text)?;
    let same = KeyExpr::read(alloc, text)?;
    let other = KeyExpr::read(alloc, other)?;
    let are_same = key == same && hash_value(&key) == hash_value(&same);
    Ok(are_same && key != other && is_read(alloc, text)?)
}

fn is_long_kept(alloc: Global, count: u32, end: &str) -> Result<bool, KeyError> {
    let text = repeated(alloc, "k/", count, end)?;
    let other = repeated(alloc, "k/", count, "y")?;
    is_kept(alloc, text.as_str(), other.as_str())
}

// Texts of 46 bytes, the most that need no memory of their own, and of more.
#[test]
fn texts_of_each_length_are_kept(rt: HostRuntime) -> Result<(), Fail> {
    assert!(rt; is_long_kept(rt.alloc(), 22, "zz")?);
    assert!(rt; is_long_kept(rt.alloc(), 22, "zzz")?);
    assert!(rt; is_long_kept(rt.alloc(), 100, "z")?);
    Ok(())
}
