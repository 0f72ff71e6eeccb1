//! Expressions with texts, answers and the places of faults, from POSIX's rules.
ghost use Rattle.std.specs.Prelude.{◌≡◌, ◌<◌};

use crate::{EreFault, compile, scratch};
use std::alloc::{AllocError, Global};
use std::marker::Brand;
use std::sync::ledger::{Blank, Ledger};
use std::test::Fail;
use usp_base::Steps;

fn match_with<L: Ledger>(
    alloc: Global,
    blank: Blank,
    expression: &[u8],
    text: &[u8],
) -> Result<bool, EreFault>
    requires name { blank.name ≡ L.name }
    requires parts { blank.parts ≡ L.parts }
    requires some { 0 < blank.parts }
{
    let ere = compile(alloc, expression)?;
    let Ok(mut scratch) = scratch(alloc, &ere) else {
        return Err(EreFault::NoMemory);
    };
    let mut steps = Steps::<L>::new(blank);
    Ok(ere.is_match(text, &mut scratch, &mut steps))
}

// Whether the expression finds some part of the text.
fn found(alloc: Global, expression: &str, text: &[u8]) -> Result<bool, EreFault> {
    let blank = Blank::new(1);
    match_with::<Brand>(alloc, blank, expression.as_bytes(), text)
}

// An expression, a text, and whether the expression finds a part of it.
const MATCHES: [(&str, &str, bool); 151] = [
    ("^a|b$", "xb", true),
    ("^a|b$", "ax", true),
    ("^a|b$", "xax", false),
    ("[[:digit:]-]", "a-", true),
    ("[[:digit:]-]", "a", false),
    ("[[:digit:]-]", "x7", true),
    ("a)", "a)", true),
    ("a)", "a", false),
    ("[]a]", "]", true),
    ("[]a]", "[", false),
    ("[a\\]", "\\", true),
    ("[a\\]", "b", false),
    ("abc", "xabcx", true),
    ("abc", "xabx", false),
    ("a|b|c", "xxc", true),
    ("a|b|c", "xyz", false),
    ("a.c", "abc", true),
    ("a.c", "ac", false),
    (".", "", false),
    ("a*", "", true),
    ("a+", "", false),
    ("a?b", "b", true),
    ("^a*$", "aaa", true),
    ("^a*$", "aab", false),
    ("^a+$", "a", true),
    ("^a+$", "ba", false),
    ("^(ab)+$", "abab", true),
    ("^(ab)+$", "aba", false),
    ("^(a|b)*$", "abba", true),
    ("^(a|b)*$", "abc", false),
    ("^a{2}$", "aa", true),
    ("^a{2}$", "a", false),
    ("^a{2}$", "aaa", false),
    ("^a{2,}$", "aaaa", true),
    ("^a{2,}$", "a", false),
    ("^a{1,3}$", "aaa", true),
    ("^a{1,3}$", "aaaa", false),
    ("^a{1,3}$", "", false),
    ("^a{0}$", "", true),
    ("^a{0}$", "a", false),
    ("^a{0,1}b$", "b", true),
    ("^(ab){2,3}c$", "ababc", true),
    ("^(ab){2,3}c$", "abc", false),
    ("^(a?){3}$", "aa", true),
    ("^(a*)*b$", "aab", true),
    ("^(a*)*b$", "aac", false),
    ("^[a-c]$", "b", true),
    ("^[a-c]$", "c", true),
    ("^[a-c]$", "d", false),
    ("^[^a-c]$", "d", true),
    ("^[^a-c]$", "a", false),
    ("^[^a-c]$", "", false),
    ("^[--a]$", "A", true),
    ("^[--a]$", ",", false),
    ("^[+--]$", ",", true),
    ("^[+--]$", ".", false),
    ("^[a-]$", "-", true),
    ("^[-a]$", "-", true),
    ("^[^-]$", "-", false),
    ("^[^-]$", "a", true),
    ("^[]]$", "]", true),
    ("^[^]]$", "]", false),
    ("^[[]$", "[", true),
    ("^[.]$", "a", false),
    ("^[*]$", "*", true),
    ("^[(]$", "(", true),
    ("^[[:alpha:]]$", "q", true),
    ("^[[:alpha:]]$", "1", false),
    ("^[[:alnum:]_]+$", "a_1", true),
    ("^[[:upper:]]$", "a", false),
    ("^[[:lower:]]$", "a", true),
    ("^[[:space:]]$", " ", true),
    ("^[[:space:]]$", "\t", true),
    ("^[[:blank:]]$", "\n", false),
    ("^[[:punct:]]$", "!", true),
    ("^[[:punct:]]$", "a", false),
    ("^[[:print:]]$", " ", true),
    ("^[[:graph:]]$", " ", false),
    ("^[[:cntrl:]]$", "\n", true),
    ("^[[:xdigit:]]$", "f", true),
    ("^[[:xdigit:]]$", "g", false),
    ("^[^[:digit:]]$", "5", false),
    ("^[^[:digit:]]$", "x", true),
    ("[:alpha:]", "p", true),
    ("[:alpha:]", "z", false),
    ("a$b", "ab", false),
    ("a^b", "ab", false),
    ("(^a)", "ba", false),
    ("(^a)", "ab", true),
    ("(a$)|b", "xb", true),
    ("(^a|b)*c$", "abbc", true),
    ("(^a|b)*c$", "abcd", false),
    ("(^a|b)*c$", "xabc", true),
    ("(^a|b){2}c$", "xabc", false),
    ("^abc", "abcx", true),
    ("^abc", "abx", false),
    ("^abc", "ab", false),
    ("^abc", "xabc", false),
    ("^abc$", "abc", true),
    ("^abc$", "abcd", false),
    ("^^ab", "ab", true),
    ("^^ab", "xab", false),
    ("^ab*c", "ac", true),
    ("^ab*c", "xac", false),
    ("^", "", true),
    ("^", "x", true),
    ("(^a|^b)c", "bc", true),
    ("(^a|^b)c", "xbc", false),
    ("$", "ab", true),
    ("b|$", "a", true),
    ("b$|c", "xb", true),
    ("b$|c", "bx", false),
    ("[.]ts$", "a.ts.ts", true),
    ("[.]ts$", "a.ts.tsx", false),
    ("ab", "aab", true),
    ("aab", "aaab", true),
    ("a?ab", "xaab", true),
    ("(a|b$)c?", "xb", true),
    ("(a{0}){2}b", "b", true),
    ("(a{0})*b", "xb", true),
    ("(^){2}b", "b", true),
    ("(^)*b", "xb", true),
    ("(^a)*b", "xb", true),
    ("(a$)*", "", true),
    ("x(a$)*y", "xy", true),
    ("x(a|$)*", "xa", true),
    ("^x(a|$){2}$", "xa", true),
    ("^x(a|$){2}$", "xaa", true),
    ("^x(a|$){2}$", "xaaa", false),
    ("^x(a|^){2}$", "xa", false),
    ("^(a|^){2}b$", "ab", true),
    ("(^a|b)c$", "xac", false),
    ("^$", "", true),
    ("^$", "a", false),
    ("^^a$$", "a", true),
    ("\\.", "a.b", true),
    ("\\.", "ab", false),
    ("\\*", "*", true),
    ("\\\\", "\\", true),
    ("a}", "a}", true),
    ("a]", "a]", true),
    ("\\<a", "<a", true),
    ("a|)", ")", true),
    ("^((a|b)c){2}$", "acbc", true),
    ("^((a|b)c){2}$", "acb", false),
    ("^http://h/", "http://h/v", true),
    ("^http://h/", "http://g/", false),
    ("^https://[ab][.]example/", "https://b.example/v", true),
    ("^https://[ab][.]example/", "https://c.example/v", false),
    (
        "[^:]*\\://[^/]*/folder/quality_[^/]*/segment.{3}\\.mp4(\\?.*)?",
        "http://x/folder/quality_hd/segment001.mp4",
        true,
    ),
    (
        "[^:]*\\://[^/]*/folder/quality_[^/]*/segment.{3}\\.mp4(\\?.*)?",
        "http://x/folder/quality_hd/segment001.mp4.bak",
        true,
    ),
];

// An expression, and how many nodes it has.
const SIZES: [(&str, usize); 10] = [
    ("a", 2),
    ("abc", 4),
    ("a|b", 4),
    ("(a*)*b", 5),
    ("a+", 4),
    ("a?", 3),
    ("a{3}", 4),
    ("a{3,}", 6),
    ("a{1,3}", 6),
    ("((a?){200}){9}(a?){199}b", 4000),
];

// A text that is no expression, and why.
const FAULTS: [(&str, EreFault); 68] = [
    ("a{256}", EreFault::Repeat { at: 1 }),
    ("*a", EreFault::Undefined { at: 0 }),
    ("()", EreFault::Undefined { at: 1 }),
    ("a||b", EreFault::Undefined { at: 2 }),
    ("a**", EreFault::Undefined { at: 2 }),
    ("a\\d", EreFault::Undefined { at: 1 }),
    ("(a", EreFault::Syntax { at: 2 }),
    ("[z-a]", EreFault::Syntax { at: 1 }),
    ("", EreFault::Undefined { at: 0 }),
    ("+", EreFault::Undefined { at: 0 }),
    ("|a", EreFault::Undefined { at: 0 }),
    ("a|", EreFault::Undefined { at: 2 }),
    ("(|a)", EreFault::Undefined { at: 1 }),
    ("(a|", EreFault::Syntax { at: 3 }),
    ("a(", EreFault::Syntax { at: 2 }),
    ("a|*", EreFault::Undefined { at: 2 }),
    ("(*a)", EreFault::Undefined { at: 1 }),
    ("a+?", EreFault::Undefined { at: 2 }),
    ("a{2}{3}", EreFault::Undefined { at: 4 }),
    ("a?{2}", EreFault::Undefined { at: 2 }),
    ("^*", EreFault::Undefined { at: 1 }),
    ("$+", EreFault::Undefined { at: 1 }),
    ("^{x", EreFault::Undefined { at: 1 }),
    ("{1}", EreFault::Undefined { at: 0 }),
    ("a{", EreFault::Syntax { at: 1 }),
    ("a{,3}", EreFault::Syntax { at: 1 }),
    ("a{x}", EreFault::Syntax { at: 1 }),
    ("a{1", EreFault::Syntax { at: 1 }),
    ("a{1,", EreFault::Syntax { at: 1 }),
    ("a{1,2", EreFault::Syntax { at: 1 }),
    ("a{01}", EreFault::Syntax { at: 1 }),
    ("a{1,02}", EreFault::Syntax { at: 1 }),
    ("a{-1}", EreFault::Syntax { at: 1 }),
    ("a{2,1}", EreFault::Repeat { at: 1 }),
    ("a{0,256}", EreFault::Repeat { at: 1 }),
    ("a{256,}", EreFault::Repeat { at: 1 }),
    ("a{99999}", EreFault::Repeat { at: 1 }),
    ("\\", EreFault::Undefined { at: 0 }),
    ("a\\", EreFault::Undefined { at: 1 }),
    ("\\1", EreFault::Undefined { at: 0 }),
    ("\\w", EreFault::Undefined { at: 0 }),
    ("[", EreFault::Syntax { at: 1 }),
    ("[a", EreFault::Syntax { at: 2 }),
    ("[]", EreFault::Syntax { at: 2 }),
    ("[^]", EreFault::Syntax { at: 3 }),
    ("[a-", EreFault::Syntax { at: 3 }),
    ("[a-c-", EreFault::Undefined { at: 4 }),
    ("[a-c-e]", EreFault::Undefined { at: 4 }),
    ("[b-a]x", EreFault::Syntax { at: 1 }),
    ("[a-[", EreFault::Syntax { at: 1 }),
    ("[+-[", EreFault::Syntax { at: 4 }),
    ("[[:foo:]]", EreFault::Syntax { at: 1 }),
    ("[[:alpha]", EreFault::Syntax { at: 1 }),
    ("[[::]]", EreFault::Syntax { at: 1 }),
    ("[[:alpha:]-z]", EreFault::Syntax { at: 1 }),
    ("[a-[:digit:]]", EreFault::Syntax { at: 1 }),
    ("[[:alpha:]-", EreFault::Syntax { at: 11 }),
    ("x[a-[:", EreFault::Syntax { at: 2 }),
    ("[[.a.]]", EreFault::Undefined { at: 1 }),
    ("[[=a=]]", EreFault::Undefined { at: 1 }),
    ("[a-[.b.]]", EreFault::Undefined { at: 3 }),
    ("[a-[=b=]]", EreFault::Undefined { at: 3 }),
    ("[x[.", EreFault::Undefined { at: 2 }),
    ("a\t", EreFault::Undefined { at: 1 }),
    ("[z-\t]", EreFault::Syntax { at: 1 }),
    ("[a-\x7f]", EreFault::Undefined { at: 3 }),
    ("(a{255}){255}", EreFault::TooLarge),
    ("((a?){200}){9}(a?){199}bb", EreFault::TooLarge),
];

// The first case in which an expression finds a part of its text and should not, or the other way round.
fn wrong_match(alloc: Global, cases: &[(&str, &str, bool)]) -> Option<usize> {
    for (i, (expression, text, want)) in cases.iter().enumerate() {
        if found(alloc, expression, text.as_bytes()) != Ok(*want) {
            return Some(i);
        }
    }
    None
}

#[test]
fn finds_the_parts_of_texts_that_match(rt: HostRuntime) -> Result<(), Fail> {
    assert_eq!(rt; wrong_match(rt.alloc(), &MATCHES), None);
    Ok(())
}

// The first case in which a text is not refused as it should be.
fn wrong_fault(alloc: Global, cases: &[(&str, EreFault)]) -> Option<usize> {
    for (i, (expression, want)) in cases.iter().enumerate() {
        if found(alloc, expression, b"") != Err(*want) {
            return Some(i);
        }
    }
    None
}

#[test]
fn refuses_what_is_no_expression_at_its_first_fault(rt: HostRuntime) -> Result<(), Fail> {
    assert_eq!(rt; wrong_fault(rt.alloc(), &FAULTS), None);
    Ok(())
}

// The first case in which an expression has another number of nodes than it should.
fn wrong_size(alloc: Global, cases: &[(&str, usize)]) -> Option<usize> {
    for (i, (expression, want)) in cases.iter().enumerate() {
        let size = match compile(alloc, expression.as_bytes()) {
            Ok(ere) => ere.size(),
            Err(_) => return Some(i),
        };
        if size != *want {
            return Some(i);
        }
    }
    None
}

#[test]
fn counts_the_nodes_of_an_expression(rt: HostRuntime) -> Result<(), Fail> {
    assert_eq!(rt; wrong_size(rt.alloc(), &SIZES), None);
    Ok(())
}

// A front, so many times, a text, and an end, so many times.
fn nested(
    alloc: Global,
    front: &str,
    text: &str,
    end: &str,
    times: usize,
) -> Result<Vec<u8>, AllocError> {
    let mut all = Vec::new(alloc);
    for _ in 0..times {
        all.extend_from_slice(front.as_bytes())?;
    }
    all.extend_from_slice(text.as_bytes())?;
    for _ in 0..times {
        all.extend_from_slice(end.as_bytes())?;
    }
    Ok(all)
}

// No clause speaks of the stack: a long branch, many open groups, and repeats of repeats.
#[test]
fn answers_for_long_texts(rt: HostRuntime) -> Result<(), Fail> {
    let branch = nested(rt.alloc(), "a", "", "a", 4096)?;
    assert_eq!(rt;
        compile(rt.alloc(), &branch).err(),
        Some(EreFault::TooLarge)
    );
    let open = nested(rt.alloc(), "(", "", "", 8192)?;
    assert_eq!(rt;
        compile(rt.alloc(), &open).err(),
        Some(EreFault::Syntax { at: 8192 })
    );
    let repeats = nested(rt.alloc(), "(", "a", ")*", 2730)?;
    assert_eq!(rt; compile(rt.alloc(), &repeats)?.size(), 2732);
    let empty = nested(rt.alloc(), "a{0}", "", "", 2048)?;
    assert_eq!(rt; compile(rt.alloc(), &empty)?.size(), 1);
    Ok(())
}

// A class, and the first and the last byte of a run of its bytes (POSIX, Base Definitions, section 7.3.1).
const RUNS: [(&str, u8, u8); 25] = [
    ("[[:alpha:]]", b'A', b'Z'),
    ("[[:alpha:]]", b'a', b'z'),
    ("[[:digit:]]", b'0', b'9'),
    ("[[:alnum:]]", b'0', b'9'),
    ("[[:alnum:]]", b'A', b'Z'),
    ("[[:alnum:]]", b'a', b'z'),
    ("[[:upper:]]", b'A', b'Z'),
    ("[[:lower:]]", b'a', b'z'),
    ("[[:space:]]", b'\t', b'\r'),
    ("[[:space:]]", b' ', b' '),
    ("[[:blank:]]", b'\t', b'\t'),
    ("[[:blank:]]", b' ', b' '),
    ("[[:punct:]]", b'!', b'/'),
    ("[[:punct:]]", b':', b'@'),
    ("[[:punct:]]", b'[', b'`'),
    ("[[:punct:]]", b'{', b'~'),
    ("[[:print:]]", b' ', b'~'),
    ("[[:graph:]]", b'!', b'~'),
    ("[[:cntrl:]]", 0, 0x1f),
    ("[[:cntrl:]]", 0x7f, 0x7f),
    ("[[:xdigit:]]", b'0', b'9'),
    ("[[:xdigit:]]", b'A', b'F'),
    ("[[:xdigit:]]", b'a', b'f'),
    ("[a-c]", b'a', b'c'),
    ("[^ -~]", 0x7f, 0xff),
];

// Whether the expression finds the byte.
fn found_byte(alloc: Global, expression: &str, byte: u8) -> Result<bool, EreFault> {
    found(alloc, expression, &[byte])
}

// The first run with a byte at its bounds, or beside them, that is not found as it should be.
fn wrong_run(alloc: Global, runs: &[(&str, u8, u8)]) -> Option<usize> {
    for (i, (class, first, last)) in runs.iter().enumerate() {
        let held = found_byte(alloc, class, *first) == Ok(true)
            && found_byte(alloc, class, *last) == Ok(true);
        let below = match first.checked_sub(1) {
            Some(byte) => found_byte(alloc, class, byte) == Ok(false),
            None => true,
        };
        let above = match last.checked_add(1) {
            Some(byte) => found_byte(alloc, class, byte) == Ok(false),
            None => true,
        };
        if !(held && below && above) {
            return Some(i);
        }
    }
    None
}

#[test]
fn holds_the_bytes_of_a_class_up_to_its_bounds(rt: HostRuntime) -> Result<(), Fail> {
    assert_eq!(rt; wrong_run(rt.alloc(), &RUNS), None);
    Ok(())
}

// Whether the expression finds a part of the text, and how many steps that takes at most.
fn found_and_most(alloc: Global, expression: &str, text: &[u8]) -> Result<(bool, usize), EreFault> {
    let size = compile(alloc, expression.as_bytes())?.size();
    let most = text.len().saturating_add(1).saturating_mul(size);
    Ok((found(alloc, expression, text)?, most))
}

// The expressions that are known to make a search by trying slow.
#[test]
fn takes_a_bounded_number_of_steps(rt: HostRuntime) -> Result<(), Fail> {
    let letters = nested(rt.alloc(), "a", "", "", 5000)?;
    assert_eq!(rt;
        found_and_most(rt.alloc(), "(a*)*b", &letters),
        Ok((false, 25_005))
    );
    let ended = nested(rt.alloc(), "a", "b", "", 5000)?;
    assert_eq!(rt;
        found_and_most(rt.alloc(), "(a*)*b", &ended),
        Ok((true, 25_010))
    );
    let long = nested(rt.alloc(), "a", "", "", 8192)?;
    assert_eq!(rt;
        found_and_most(rt.alloc(), "((a?){200}){9}(a?){199}b", &long),
        Ok((false, 32_772_000))
    );
    assert_eq!(rt;
        found_and_most(rt.alloc(), "((a?){200}){9}(a?){199}bb", &long),
        Err(EreFault::TooLarge)
    );
    Ok(())
}

// The example of the crate's first page.
fn example<L: Ledger>(alloc: Global, blank: Blank) -> Result<bool, Fail>
    requires name { blank.name ≡ L.name }
    requires parts { blank.parts ≡ L.parts }
    requires some { 0 < blank.parts }
{
    let ere = compile(alloc, b"^https://[ab][.]example/")?;
    let mut room = scratch(alloc, &ere)?;
    let mut steps = Steps::<L>::new(blank);
    Ok(ere.is_match(b"https://a.example/v", &mut room, &mut steps))
}

fn example_finds(alloc: Global) -> Result<bool, Fail> {
    let blank = Blank::new(1);
    example::<Brand>(alloc, blank)
}

#[test]
fn matches_as_on_the_first_page(rt: HostRuntime) -> Result<(), Fail> {
    assert!(rt; example_finds(rt.alloc())?);
    Ok(())
}

#[test]
fn knows_want_of_memory(rt: HostRuntime) -> Result<(), Fail> {
    assert!(rt; EreFault::NoMemory.is_memory() && !EreFault::TooLarge.is_memory());
    Ok(())
}
