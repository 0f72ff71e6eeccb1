//! Readings, refusals and spellings from outside.

use crate::{
    Items, Json, JsonFault, MAX_LEVELS, MAX_MEMBERS, Members, NoMemory, NumText, Text,
    canonical_len, read_members, write_json, write_members,
};
use std::alloc::{AllocError, Global};
use std::test::Fail;

fn reads(alloc: Global, text: &[u8], canonical: &[u8]) -> bool {
    let Ok(members) = read_members(alloc, text) else {
        return false;
    };
    match write_members(alloc, &members) {
        Ok(written) => written.as_slice() == canonical,
        Err(_) => false,
    }
}

fn refuses(alloc: Global, text: &[u8], fault: JsonFault) -> bool {
    match read_members(alloc, text) {
        Ok(_) => false,
        Err(found) => found == fault,
    }
}

#[test]
fn reads_every_spelling(rt: HostRuntime) -> Result<(), Fail> {
    let table: [(&[u8], &[u8]); 22] = [
        (b"{}", b"{}"),
        (b" \t\r\n{ \n} ", b"{}"),
        (
            b"{\"a\":null,\"b\":true,\"c\":false}",
            b"{\"a\":null,\"b\":true,\"c\":false}",
        ),
        (
            b"{ \"a\" : [ 1 , 2 ] , \"b\" : { } }",
            b"{\"a\":[1,2],\"b\":{}}",
        ),
        (b"{\"a\":[]}", b"{\"a\":[]}"),
        (b"{\"a\":[ ]}", b"{\"a\":[]}"),
        (b"{\"\":0}", b"{\"\":0}"),
        (b"{\"a\":0}", b"{\"a\":0}"),
        (b"{\"a\":-0}", b"{\"a\":-0}"),
        (b"{\"a\":10.50}", b"{\"a\":10.50}"),
        (
            b"{\"a\":1e5,\"b\":1E+05,\"c\":-1.0e-0}",
            b"{\"a\":1e5,\"b\":1E+05,\"c\":-1.0e-0}",
        ),
        (b"{\"a\":123 }", b"{\"a\":123}"),
        (
            b"{\"a\":\"\\\"\\\\\\/\\b\\f\\n\\r\\t\"}",
            b"{\"a\":\"\\\"\\\\/\\b\\f\\n\\r\\t\"}",
        ),
        (
            b"{\"a\":\"\\u0041\\u00e9\\u20AC\"}",
            b"{\"a\":\"A\xc3\xa9\xe2\x82\xac\"}",
        ),
        (
            b"{\"a\":\"\\ud83d\\ude00\"}",
            b"{\"a\":\"\xf0\x9f\x98\x80\"}",
        ),
        (
            b"{\"a\":\"\\uD800\\uDC00\\udbff\\udfff\"}",
            b"{\"a\":\"\xf0\x90\x80\x80\xf4\x8f\xbf\xbf\"}",
        ),
        (
            b"{\"a\":\"\\u0000\\u001F\\u007f\"}",
            b"{\"a\":\"\\u0000\\u001f\x7f\"}",
        ),
        (
            b"{\"a\":\"\xc3\xa9\xed\x9f\xbf\xee\x80\x80\xf0\x90\x80\x80\"}",
            b"{\"a\":\"\xc3\xa9\xed\x9f\xbf\xee\x80\x80\xf0\x90\x80\x80\"}",
        ),
        (b"{\"a\":1,\"A\":2,\"a \":3}", b"{\"a\":1,\"A\":2,\"a \":3}"),
        (b"{\"a\":{\"a\":{\"a\":1}}}", b"{\"a\":{\"a\":{\"a\":1}}}"),
        (
            b"{\"a\":\"\\u00e9\\/\\n\",\"b\":[1,-0.5e1,{}]}",
            b"{\"a\":\"\xc3\xa9/\\n\",\"b\":[1,-0.5e1,{}]}",
        ),
        (
            b"{\"a\":[[[[[[[[[[[[[[[]]]]]]]]]]]]]]]}",
            b"{\"a\":[[[[[[[[[[[[[[[]]]]]]]]]]]]]]]}",
        ),
    ];
    for row in table.iter() {
        assert!(rt; reads(rt.alloc(), row.0, row.1));
    }
    Ok(())
}

#[test]
fn names_the_first_byte_that_cannot_go_on(rt: HostRuntime) -> Result<(), Fail> {
    let table: [(&[u8], usize); 46] = [
        (b"", 0),
        (b"  ", 2),
        (b"[", 0),
        (b"1", 0),
        (b"{", 1),
        (b"{}x", 2),
        (b"{}{", 2),
        (b"{,", 1),
        (b"{a", 1),
        (b"{\"a\"}", 4),
        (b"{\"a\":}", 5),
        (b"{\"a\":1,}", 7),
        (b"{\"a\":1", 6),
        (b"{\"a\":1]", 6),
        (b"{\"a\" 1", 5),
        (b"{\"a\":[1,]}", 8),
        (b"{\"a\":[,", 6),
        (b"{\"a\":[1}", 7),
        (b"{\"a\":01}", 6),
        (b"{\"a\":-}", 6),
        (b"{\"a\":-01}", 7),
        (b"{\"a\":+1}", 5),
        (b"{\"a\":.5}", 5),
        (b"{\"a\":1.}", 7),
        (b"{\"a\":1.e1}", 7),
        (b"{\"a\":1e}", 7),
        (b"{\"a\":1e+}", 8),
        (b"{\"a\":1x}", 6),
        (b"{\"a\":nul}", 8),
        (b"{\"a\":True}", 5),
        (b"{\"a\":falsey}", 10),
        (b"{\"a\":\"\\x\"}", 7),
        (b"{\"a\":\"\\u12g4\"}", 10),
        (b"{\"a\":\"\\ud800\"}", 12),
        (b"{\"a\":\"\\udc00\"}", 9),
        (b"{\"a\":\"\\ud800\\n\"}", 13),
        (b"{\"a\":\"\\ud800\\u0041\"}", 14),
        (b"{\"a\":\"\\ud800\\ud800\"}", 15),
        (b"{\"a\":\"\n\"}", 6),
        (b"{\"a\":\"\x1f\"}", 6),
        (b"{\"a\":\"\x80\"}", 6),
        (b"{\"a\":\"\xc0\x80\"}", 6),
        (b"{\"a\":\"\xe0\x80\x80\"}", 7),
        (b"{\"a\":\"\xed\xa0\x80\"}", 7),
        (b"{\"a\":\"\xf4\x90\x80\x80\"}", 7),
        (b"{\"a\":\"\xe2\x82\"}", 8),
    ];
    for row in table.iter() {
        assert!(rt; refuses(rt.alloc(), row.0, JsonFault::Syntax { at: row.1 }));
    }
    Ok(())
}

// An object of so many members, `"k00":0` and so on.
fn many(alloc: Global, count: u8) -> Result<Vec<u8>, AllocError> {
    let mut text = Vec::new(alloc);
    text.push(b'{')?;
    for i in 0..count {
        if i > 0 {
            text.push(b',')?;
        }
        text.extend_from_slice(b"\"k")?;
        text.push(b'0' + i / 10 % 10)?;
        text.push(b'0' + i % 10)?;
        text.extend_from_slice(b"\":0")?;
    }
    text.push(b'}')?;
    Ok(text)
}

#[test]
fn names_the_limit_that_a_byte_breaks(rt: HostRuntime) -> Result<(), Fail> {
    let table: [(&[u8], JsonFault); 8] = [
        (b"{\"a\":[[[[[[[[[[[[[[[[", JsonFault::Deep { at: 20 }),
        (b"{\"a\":[[[[[[[[[[[[[[[{", JsonFault::Deep { at: 20 }),
        (b"{\"a\":1,\"\\u0061\":2}", JsonFault::Duplicate { at: 14 }),
        (
            b"{\"cdniuc\":\"hash:x\",\"exp\":1,\"exp\":2}",
            JsonFault::Duplicate { at: 31 },
        ),
        (b"{\"a\":1,\"a", JsonFault::Syntax { at: 9 }),
        (b"{\"\":1,\"\"", JsonFault::Duplicate { at: 7 }),
        (
            b"{\"b\":{\"a\":1,\"a\":2}}",
            JsonFault::Duplicate { at: 14 },
        ),
        (b"{\"cdniuc\":\"hash:x\"", JsonFault::Syntax { at: 18 }),
    ];
    for row in table.iter() {
        assert!(rt; refuses(rt.alloc(), row.0, row.1));
    }
    let most = many(rt.alloc(), 64)?;
    assert!(rt; reads(rt.alloc(), most.as_slice(), most.as_slice()));
    let more = many(rt.alloc(), 65)?;
    assert!(rt; refuses(rt.alloc(), more.as_slice(), JsonFault::Many { at: 512 }));
    Ok(())
}

// `{"n":18,"t":"x","l":[true]}`, built, copied and changed.
fn built(alloc: Global) -> Result<Members, crate::NoMemory> {
    let mut items = Items::new(alloc);
    items.push(Json::Bool(true))?;
    let list = Json::List(items);
    let mut members = Members::new(alloc);
    members.push(Text::of(alloc, "n")?, Json::Null)?;
    members.push(Text::of(alloc, "t")?, Json::Str(Text::of(alloc, "x")?))?;
    members.push(Text::of(alloc, "l")?, list.copy(alloc)?)?;
    if members.len() > 0 {
        members.set(0, Json::Num(NumText::whole(alloc, 18)?));
    }
    Ok(members)
}

#[test]
fn writes_what_was_pushed_and_set(rt: HostRuntime) -> Result<(), Fail> {
    let Ok(members) = built(rt.alloc()) else {
        assert!(rt; false);
        return Ok(());
    };
    assert!(rt; members.len() == 3);
    assert!(rt; members.find(b"t").is_some());
    assert!(rt; members.find(b"x").is_none());
    match write_members(rt.alloc(), &members) {
        Ok(text) => assert!(rt;
            text.as_slice() == b"{\"n\":18,\"t\":\"x\",\"l\":[true]}".as_slice()
        ),
        Err(_) => assert!(rt; false),
    }
    Ok(())
}

// Whether the length that is counted, and that of the text that is written, are so many bytes.
fn counts(alloc: Global, text: &[u8], expected: usize) -> Result<bool, JsonFault> {
    let members = read_members(alloc, text)?;
    let written = write_members(alloc, &members)?.len();
    Ok(written == expected && canonical_len(&members) == expected)
}

// The lengths are those of Python's `json`, which escapes the same bytes.
#[test]
fn counts_what_is_written(rt: HostRuntime) -> Result<(), Fail> {
    let table: [(&[u8], usize); 10] = [
        (b"{}", 2),
        (b" { } ", 2),
        (b"{\"a\":null,\"b\":true,\"c\":false}", 29),
        (b"{\"a\" : [ ] , \"b\" : { } }", 15),
        (b"{\"a\":[1, -0.5e1 ,18446744073709551616]}", 37),
        (b"{\"a\":[\"x\",[\"y\",[]],{\"z\":{}}]}", 29),
        (b"{\"\\u0061\\\"\":\"\\u00e9\\/\"}", 13),
        (b"{\"a\":\"\\\"\\\\\\b\\t\\n\\f\\r\"}", 22),
        (
            b"{\"a\":\"\\u0000\\u0007\\u000b\\u000e\\u001f\\u0020\\u007f\"}",
            40,
        ),
        (b"{\"a\":\"\\u20ac\\ud83d\\ude00\",\"\\u0001\":\"\"}", 27),
    ];
    for row in table.iter() {
        assert!(rt; counts(rt.alloc(), row.0, row.1) == Ok(true));
    }
    Ok(())
}

// Whether a value is a text or a number of these bytes.
fn spells(found: Option<&[u8]>, expected: &[u8]) -> bool {
    match found {
        None => false,
        Some(bytes) => bytes == expected,
    }
}

#[test]
fn finds_and_copies_each_member(rt: HostRuntime) -> Result<(), Fail> {
    let alloc = rt.alloc();
    let Ok(members) = built(alloc) else {
        assert!(rt; false);
        return Ok(());
    };
    let Ok(copied) = members.copy(alloc) else {
        assert!(rt; false);
        return Ok(());
    };
    let table: [(&[u8], usize, &[u8]); 3] = [
        (b"n", 0, b"18"),
        (b"t", 1, b"\"x\""),
        (b"l", 2, b"[true]"),
    ];
    for row in table.iter() {
        assert!(rt; copied.place(row.0) == Some(row.1));
        match copied.find(row.0) {
            None => assert!(rt; false),
            Some(value) => match write_json(alloc, value) {
                Err(_) => assert!(rt; false),
                Ok(text) => assert!(rt; text.as_slice() == row.2),
            },
        }
    }
    assert!(rt; copied.place(b"x").is_none());
    if let (Some(number), Some(text)) = (copied.find(b"n"), copied.find(b"t")) {
        assert!(rt; spells(number.number(), b"18") && number.text().is_none());
        assert!(rt; spells(text.text(), b"x") && text.number().is_none());
    }
    Ok(())
}

// The example of the crate's first page.
fn example(alloc: Global) -> Result<bool, JsonFault> {
    let members = read_members(alloc, b"{ \"exp\" : 1500, \"iss\" : \"\\u0061\" }")?;
    let text = write_members(alloc, &members)?;
    Ok(
        members.find(b"iss").is_some()
            && text.as_slice() == b"{\"exp\":1500,\"iss\":\"a\"}".as_slice(),
    )
}

#[test]
fn shows_the_example(rt: HostRuntime) -> Result<(), Fail> {
    assert!(rt; example(rt.alloc()) == Ok(true));
    Ok(())
}

#[test]
fn knows_texts_and_their_lists(rt: HostRuntime) -> Result<(), Fail> {
    let alloc = rt.alloc();
    let spelled =
        b"{\"t\":\"x\",\"n\":1,\"l\":[\"x\",\"y\"],\"m\":[\"x\",1],\"e\":[],\"o\":{\"x\":\"x\"}}";
    let Ok(members) = read_members(alloc, spelled) else {
        assert!(rt; false);
        return Ok(());
    };
    let table: [(&[u8], [bool; 4]); 6] = [
        (b"t", [true, true, false, false]),
        (b"n", [false, false, false, false]),
        (b"l", [false, false, true, true]),
        (b"m", [false, false, false, true]),
        (b"e", [false, false, true, false]),
        (b"o", [false, false, false, false]),
    ];
    for row in table.iter() {
        match members.find(row.0) {
            None => assert!(rt; false),
            Some(value) => assert!(rt;
                [
                    value.is_text(),
                    value.is_this(b"x"),
                    value.is_texts(),
                    value.lists(b"x")
                ] == row.1
            ),
        }
    }
    Ok(())
}

#[test]
fn says_what_to_mend(rt: HostRuntime) -> Result<(), Fail> {
    let alloc = rt.alloc();
    let table: [(JsonFault, &str, bool); 5] = [
        (
            JsonFault::Syntax { at: 7 },
            "no JSON object: it goes wrong, or ends, at byte 7, counted from 0",
            false,
        ),
        (
            JsonFault::Duplicate { at: 31 },
            "a name stands twice in its object: take out the one that ends at byte 31",
            false,
        ),
        (
            JsonFault::Deep { at: 20 },
            "more than 16 levels: nest less at byte 20",
            false,
        ),
        (
            JsonFault::Many { at: 512 },
            "more than 64 members: end the object at byte 512",
            false,
        ),
        (JsonFault::NoMemory, "out of memory", true),
    ];
    for row in table.iter() {
        assert!(rt; row.0.to_string(alloc)?.as_str() == row.1);
        assert!(rt; row.0.is_memory() == row.2);
    }
    assert!(rt; NoMemory.to_string(alloc)?.as_str() == "out of memory");
    assert!(rt; MAX_LEVELS == 16 && MAX_MEMBERS == 64);
    Ok(())
}
