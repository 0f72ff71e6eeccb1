//! Configurations that are read, and the first row that fails in the others.
use crate::{Conf, ConfFault, read_conf};
use std::alloc::Global;
use std::test::Fail;
use usp_ext::{Setting, TestKind};
use usp_json::Text;

// The rows of a configuration that is read, by their names.
const BASE: [(&[u8], &[u8]); 6] = [
    (b"edge", b"\"edge\":\"e\""),
    (b"scheme", b"\"scheme\":\"http\""),
    (
        b"keys",
        b"\"keys\":[{\"kid\":\"k1\",\"issuer\":\"cp\",\"secret\":\"AQEBAQEBAQEBAQEBAQEBAQEBAQEBAQEBAQEBAQEBAQE\"}]",
    ),
    (b"issuers", b"\"issuers\":[\"cp\"]"),
    (b"audience", b"\"audience\":[\"e\"]"),
    (b"sign_kid", b"\"sign_kid\":\"k1\""),
];

// The pieces, one after the other.
fn joined(alloc: Global, pieces: &[&[u8]]) -> Result<Vec<u8>, Fail> {
    let mut text = Vec::new(alloc);
    for piece in pieces {
        text.extend_from_slice(*piece)?;
    }
    Ok(text)
}

// That configuration with another row of that name, or with none where the row is empty.
fn text_with(alloc: Global, name: &[u8], row: &[u8]) -> Result<Vec<u8>, Fail> {
    let mut text = Vec::from_slice(alloc, b"{\"others\":null")?;
    let mut there = false;
    for (of, base) in BASE {
        let same = of == name;
        let piece = if same { row } else { base };
        if !piece.is_empty() {
            text.push(b',')?;
            text.extend_from_slice(piece)?;
        }
        there = there || same;
    }
    if !there && !row.is_empty() {
        text.push(b',')?;
        text.extend_from_slice(row)?;
    }
    text.push(b'}')?;
    Ok(text)
}

fn fault_text(alloc: Global, fault: &ConfFault) -> Result<String, Fail> {
    Ok(match fault {
        ConfFault::Json => String::from_str(alloc, "Json")?,
        ConfFault::Missing { member } => format!(in alloc; "Missing {}", member.name())?,
        ConfFault::Kind { member } => format!(in alloc; "Kind {}", member.name())?,
        ConfFault::Range { member } => format!(in alloc; "Range {}", member.name())?,
        ConfFault::ShortKey { kid } => format!(in alloc; "ShortKey {}", kid.text())?,
        ConfFault::Repeat { member } => format!(in alloc; "Repeat {}", member.name())?,
        ConfFault::NoMemory => String::from_str(alloc, "NoMemory")?,
    })
}

fn printed(alloc: Global, read: Result<Conf, ConfFault>) -> Result<String, Fail> {
    match read {
        Ok(_conf) => Ok(String::from_str(alloc, "read")?),
        Err(fault) => fault_text(alloc, &fault),
    }
}

// What is answered to that configuration with another row.
fn answer(alloc: Global, name: &[u8], row: &[u8]) -> Result<String, Fail> {
    let text = text_with(alloc, name, row)?;
    printed(alloc, read_conf(alloc, &text))
}

#[test]
fn a_text_that_is_no_json_has_no_row(rt: HostRuntime) -> Result<(), Fail> {
    let alloc = rt.alloc();
    let rows: [(&[u8], &str); 9] = [
        (b"", "Json"),
        (b"{", "Json"),
        (b"{} x", "Json"),
        (b"{\"edge\":\"\xff\"}", "Json"),
        (b"{\"edge\":1e999}", "Json"),
        (b"{}", "Missing edge"),
        (b"[]", "Missing edge"),
        (b" null ", "Missing edge"),
        (b"{\"edge\":1,\"enforce\":false}", "Kind edge"),
    ];
    for (text, expected) in rows {
        let found = printed(alloc, read_conf(alloc, text))?;
        assert_eq!(rt; found.as_str(), expected);
    }
    Ok(())
}

#[test]
fn a_fault_says_what_to_mend(rt: HostRuntime) -> Result<(), Fail> {
    let alloc = rt.alloc();
    let rows: [(&[u8], &[u8], &str); 6] = [
        (
            b"edge",
            b"",
            "`edge` must be there: a text that is an identity",
        ),
        (
            b"scheme",
            b"\"scheme\":1",
            "`scheme` is of another kind: write \"http\" or \"https\"",
        ),
        (
            b"enforce",
            b"\"enforce\":false",
            "`enforce` is out of its range: write true, or leave it out",
        ),
        (
            b"keys",
            b"\"keys\":[{\"kid\":\"k1\",\"issuer\":\"cp\",\"secret\":\"AQ\"}]",
            "the key `k1` needs a secret of at least 32 random bytes",
        ),
        (
            b"secret",
            b"\"keys\":[{\"kid\":\"k1\",\"issuer\":\"cp\",\"secret\":\"A\"}]",
            "`secret` is out of its range: write the base64url, without padding, of random bytes, 32 to 64 of them",
        ),
        (b"json", b"x", "the configuration must be JSON, in UTF-8"),
    ];
    for (name, row, expected) in rows {
        let text = text_with(alloc, name, row)?;
        let Err(fault) = read_conf(alloc, &text) else {
            return Err(Fail::new("read"));
        };
        assert_eq!(rt; format!(in alloc; "{fault}")?.as_str(), expected);
        assert!(rt; !fault.is_memory());
    }
    assert!(rt; ConfFault::NoMemory.is_memory());
    Ok(())
}

#[test]
fn the_edge_is_an_identity(rt: HostRuntime) -> Result<(), Fail> {
    let alloc = rt.alloc();
    let rows: [(&[u8], &str); 10] = [
        (b"", "Missing edge"),
        (b"\"edge\":1", "Kind edge"),
        (b"\"edge\":null", "Kind edge"),
        (b"\"edge\":\"\"", "Range edge"),
        (b"\"edge\":\"a b\"", "Range edge"),
        (b"\"edge\":\"a\\\"\"", "Range edge"),
        (b"\"edge\":\"\\u00e9\"", "Range edge"),
        (b"\"edge\":\"!~\"", "read"),
        (b"\"edge\":1,\"edge\":\"e\"", "read"),
        (b"\"edge\":\"e\",\"edge\":1", "Kind edge"),
    ];
    for (row, expected) in rows {
        assert_eq!(rt; answer(alloc, b"edge", row)?.as_str(), expected);
    }
    Ok(())
}

#[test]
fn scheme_and_attribute_have_their_letters(rt: HostRuntime) -> Result<(), Fail> {
    let alloc = rt.alloc();
    let rows: [(&[u8], &[u8], &str); 9] = [
        (b"scheme", b"", "Missing scheme"),
        (b"scheme", b"\"scheme\":true", "Kind scheme"),
        (b"scheme", b"\"scheme\":\"ftp\"", "Range scheme"),
        (b"scheme", b"\"scheme\":\"HTTP\"", "Range scheme"),
        (b"scheme", b"\"scheme\":\"https\"", "read"),
        (b"attribute", b"\"attribute\":1", "Kind attribute"),
        (b"attribute", b"\"attribute\":\"\"", "Range attribute"),
        (b"attribute", b"\"attribute\":\"a.b\"", "Range attribute"),
        (b"attribute", b"\"attribute\":\"a-_0\"", "read"),
    ];
    for (name, row, expected) in rows {
        assert_eq!(rt; answer(alloc, name, row)?.as_str(), expected);
    }
    Ok(())
}

#[test]
fn a_key_has_its_members(rt: HostRuntime) -> Result<(), Fail> {
    let alloc = rt.alloc();
    let rows: [(&[u8], &str); 11] = [
        (b"\"keys\":{}", "Kind keys"),
        (b"\"keys\":[]", "Range keys"),
        (b"\"keys\":[1]", "Kind keys"),
        (b"\"keys\":[{}]", "Missing kid"),
        (b"\"keys\":[{\"kid\":1}]", "Kind kid"),
        (b"\"keys\":[{\"kid\":\"\"}]", "Range kid"),
        (b"\"keys\":[{\"kid\":\"a b\"}]", "Range kid"),
        (b"\"keys\":[{\"kid\":\"k1\"}]", "Missing issuer"),
        (b"\"keys\":[{\"kid\":\"k1\",\"issuer\":[]}]", "Kind issuer"),
        (
            b"\"keys\":[{\"kid\":\"k1\",\"issuer\":\"\\\\\"}]",
            "Range issuer",
        ),
        (
            b"\"keys\":[{\"kid\":\"k1\",\"issuer\":\"cp\"}]",
            "Missing secret",
        ),
    ];
    for (row, expected) in rows {
        assert_eq!(rt; answer(alloc, b"keys", row)?.as_str(), expected);
    }
    Ok(())
}

#[test]
fn a_secret_is_base64url_of_32_to_64_bytes(rt: HostRuntime) -> Result<(), Fail> {
    let alloc = rt.alloc();
    let rows: [(&[u8], &str); 8] = [
        (b"1", "Kind secret"),
        (b"\"A\"", "Range secret"),
        (b"\"AQ==\"", "Range secret"),
        (b"\"\"", "ShortKey k1"),
        (
            b"\"AQEBAQEBAQEBAQEBAQEBAQEBAQEBAQEBAQEBAQEBAQ\"",
            "ShortKey k1",
        ),
        (
            b"\"AQEBAQEBAQEBAQEBAQEBAQEBAQEBAQEBAQEBAQEBAQF\"",
            "Range secret",
        ),
        (
            b"\"AQEBAQEBAQEBAQEBAQEBAQEBAQEBAQEBAQEBAQEBAQEBAQEBAQEBAQEBAQEBAQEBAQEBAQEBAQEBAQEBAQEBAQ\"",
            "read",
        ),
        (
            b"\"AQEBAQEBAQEBAQEBAQEBAQEBAQEBAQEBAQEBAQEBAQEBAQEBAQEBAQEBAQEBAQEBAQEBAQEBAQEBAQEBAQEBAQE\"",
            "Range secret",
        ),
    ];
    for (secret, expected) in rows {
        let front = b"\"keys\":[{\"kid\":\"k1\",\"issuer\":\"cp\",\"secret\":";
        let row = joined(alloc, &[front, secret, b"}]"])?;
        assert_eq!(rt; answer(alloc, b"keys", &row)?.as_str(), expected);
    }
    Ok(())
}

// A key of that name, with a comma before it.
fn add_key(keys: &mut Vec<u8>, kid: &[u8]) -> Result<(), Fail> {
    keys.extend_from_slice(b",{\"kid\":\"")?;
    keys.extend_from_slice(kid)?;
    keys.extend_from_slice(
        b"\",\"issuer\":\"cp\",\"secret\":\"AQEBAQEBAQEBAQEBAQEBAQEBAQEBAQEBAQEBAQEBAQE\"}",
    )?;
    Ok(())
}

// A list of a key `k1` and keys of those names.
fn keys_named(alloc: Global, kids: &[&[u8]]) -> Result<Vec<u8>, Fail> {
    let mut keys = Vec::new(alloc);
    for kid in kids {
        add_key(&mut keys, *kid)?;
    }
    let front =
        b"\"keys\":[{\"kid\":\"k1\",\"issuer\":\"cp\",\"secret\":\"AQEBAQEBAQEBAQEBAQEBAQEBAQEBAQEBAQEBAQEBAQE\"}";
    joined(alloc, &[front, &keys, b"]"])
}

#[test]
fn two_keys_have_two_names(rt: HostRuntime) -> Result<(), Fail> {
    let alloc = rt.alloc();
    let rows: [(&[&[u8]], &str); 5] = [
        (&[], "read"),
        (&[b"k2"], "read"),
        (&[b"k1"], "Repeat kid"),
        (&[b"k2", b"k1"], "Repeat kid"),
        (&[b"k1", b""], "Range kid"),
    ];
    for (kids, expected) in rows {
        let row = keys_named(alloc, kids)?;
        assert_eq!(rt; answer(alloc, b"keys", &row)?.as_str(), expected);
    }
    Ok(())
}

#[test]
fn the_own_key_has_an_accepted_issuer(rt: HostRuntime) -> Result<(), Fail> {
    let alloc = rt.alloc();
    let rows: [(&[u8], &[u8], &str); 10] = [
        (b"keys", b"", "Missing keys"),
        (b"issuers", b"\"issuers\":{}", "Kind issuers"),
        (b"issuers", b"\"issuers\":[1]", "Kind issuers"),
        (b"issuers", b"\"issuers\":[\"\"]", "Range issuers"),
        (b"issuers", b"", "Range sign_kid"),
        (b"issuers", b"\"issuers\":[\"cdn\"]", "Range sign_kid"),
        (b"issuers", b"\"issuers\":[\"cdn\",\"cp\"]", "read"),
        (b"sign_kid", b"", "Missing sign_kid"),
        (b"sign_kid", b"\"sign_kid\":1", "Kind sign_kid"),
        (b"sign_kid", b"\"sign_kid\":\"k2\"", "Range sign_kid"),
    ];
    for (name, row, expected) in rows {
        assert_eq!(rt; answer(alloc, name, row)?.as_str(), expected);
    }
    Ok(())
}

#[test]
fn the_audience_is_a_list_of_identities(rt: HostRuntime) -> Result<(), Fail> {
    let alloc = rt.alloc();
    let rows: [(&[u8], &str); 5] = [
        (b"", "read"),
        (b"\"audience\":\"e\"", "Kind audience"),
        (b"\"audience\":[null]", "Kind audience"),
        (b"\"audience\":[\"e\",\"a b\"]", "Range audience"),
        (b"\"audience\":[]", "read"),
    ];
    for (row, expected) in rows {
        assert_eq!(rt; answer(alloc, b"audience", row)?.as_str(), expected);
    }
    Ok(())
}

#[test]
fn the_room_is_a_whole_number(rt: HostRuntime) -> Result<(), Fail> {
    let alloc = rt.alloc();
    let rows: [(&[u8], &str); 11] = [
        (b"\"room\":\"1\"", "Kind room"),
        (b"\"room\":null", "Kind room"),
        (b"\"room\":0", "Range room"),
        (b"\"room\":1", "read"),
        (b"\"room\":65536", "read"),
        (b"\"room\":65537", "Range room"),
        (b"\"room\":-1", "Range room"),
        (b"\"room\":-0", "Range room"),
        (b"\"room\":1.0", "Range room"),
        (b"\"room\":1e1", "Range room"),
        (b"\"room\":18446744073709551616", "Range room"),
    ];
    for (row, expected) in rows {
        assert_eq!(rt; answer(alloc, b"room", row)?.as_str(), expected);
    }
    Ok(())
}

#[test]
fn enforcement_is_on(rt: HostRuntime) -> Result<(), Fail> {
    let alloc = rt.alloc();
    let rows: [(&[u8], &str); 4] = [
        (b"\"enforce\":1", "Kind enforce"),
        (b"\"enforce\":false", "Range enforce"),
        (b"\"enforce\":true", "read"),
        (b"\"room\":0,\"enforce\":false", "Range room"),
    ];
    for (row, expected) in rows {
        assert_eq!(rt; answer(alloc, b"enforce", row)?.as_str(), expected);
    }
    Ok(())
}

#[test]
fn an_extension_has_its_members(rt: HostRuntime) -> Result<(), Fail> {
    let alloc = rt.alloc();
    let rows: [(&[u8], &str); 11] = [
        (b"\"extensions\":{}", "Kind extensions"),
        (b"\"extensions\":[1]", "Kind extensions"),
        (b"\"extensions\":[]", "read"),
        (b"\"extensions\":[{}]", "Missing claim"),
        (b"\"extensions\":[{\"claim\":1}]", "Kind claim"),
        (b"\"extensions\":[{\"claim\":\"exp\"}]", "Range claim"),
        (b"\"extensions\":[{\"claim\":\"cdnistd\"}]", "Range claim"),
        (b"\"extensions\":[{\"claim\":\"x\"}]", "Missing test"),
        (
            b"\"extensions\":[{\"claim\":\"x\",\"test\":1}]",
            "Kind test",
        ),
        (
            b"\"extensions\":[{\"claim\":\"x\",\"test\":\"Any\"}]",
            "Range test",
        ),
        (
            b"\"extensions\":[{\"claim\":\"\",\"test\":\"any\"}]",
            "Missing setting",
        ),
    ];
    for (row, expected) in rows {
        assert_eq!(rt; answer(alloc, b"extensions", row)?.as_str(), expected);
    }
    Ok(())
}

#[test]
fn a_setting_has_the_shape_of_its_test(rt: HostRuntime) -> Result<(), Fail> {
    let alloc = rt.alloc();
    let rows: [(&[u8], &[u8], &str); 15] = [
        (b"any", b"null", "read"),
        (b"any", b"1", "Kind setting"),
        (b"equals", b"null", "Kind setting"),
        (b"equals", b"\"yes\"", "read"),
        (b"one_of", b"\"a\"", "Kind setting"),
        (b"one_of", b"[\"a\",1]", "Kind setting"),
        (b"one_of", b"[\"a\",\"b\"]", "read"),
        (b"one_of", b"[]", "read"),
        (b"at_most", b"\"1\"", "Kind setting"),
        (b"at_most", b"-1", "Range setting"),
        (b"at_most", b"1.0", "Range setting"),
        (b"at_most", b"9007199254740992", "Range setting"),
        (b"at_most", b"9007199254740991", "read"),
        (b"path_prefix", b"\"/\"", "Kind setting"),
        (b"path_prefix", b"null", "read"),
    ];
    for (test, setting, expected) in rows {
        let front = b"\"extensions\":[{\"claim\":\"x\",\"test\":\"";
        let row = joined(alloc, &[front, test, b"\",\"setting\":", setting, b"}]"])?;
        assert_eq!(rt; answer(alloc, b"extensions", &row)?.as_str(), expected);
    }
    Ok(())
}

#[test]
fn two_extensions_are_of_two_claims(rt: HostRuntime) -> Result<(), Fail> {
    let alloc = rt.alloc();
    let x = b"{\"claim\":\"x\",\"test\":\"any\",\"setting\":null},";
    let y = b"{\"claim\":\"y\",\"test\":\"any\",\"setting\":null},";
    let rows: [(&[u8], &[u8], &[u8], &str); 4] = [
        (
            x,
            y,
            b"{\"claim\":\"z\",\"test\":\"any\",\"setting\":null}",
            "read",
        ),
        (
            x,
            y,
            b"{\"claim\":\"x\",\"test\":\"any\",\"setting\":null}",
            "Repeat claim",
        ),
        (
            y,
            y,
            b"{\"claim\":\"x\",\"test\":\"any\",\"setting\":null}",
            "Repeat claim",
        ),
        (x, x, b"{}", "Missing claim"),
    ];
    for (one, two, three, expected) in rows {
        let row = joined(alloc, &[b"\"extensions\":[", one, two, three, b"]"])?;
        assert_eq!(rt; answer(alloc, b"extensions", &row)?.as_str(), expected);
    }
    Ok(())
}

// The members of a route, but for its audience.
const PLACED: &[u8] = b"\"prefix\":\"/v\",\"scheme\":\"http\",\"authority\":\"h\"";

// Those of its key.
const KEYED: &[u8] =
    b",\"kid\":\"k2\",\"issuer\":\"cp\",\"secret\":\"AQEBAQEBAQEBAQEBAQEBAQEBAQEBAQEBAQEBAQEBAQE\"";

#[test]
fn a_route_has_a_prefix_and_a_place(rt: HostRuntime) -> Result<(), Fail> {
    let alloc = rt.alloc();
    let rows: [(&[u8], &[u8], &[u8], &str); 11] = [
        (b"", b"", b"", "Missing prefix"),
        (b"\"prefix\":1", b"", b"", "Kind prefix"),
        (b"\"prefix\":\"\"", b"", b"", "Range prefix"),
        (b"\"prefix\":\"v\"", b"", b"", "Range prefix"),
        (b"\"prefix\":\"/\\u00e9\"", b"", b"", "Range prefix"),
        (b"\"prefix\":\"/v\"", b"", b"", "Missing scheme"),
        (b"\"prefix\":\"/v\",\"scheme\":1", b"", b"", "Kind scheme"),
        (
            b"\"prefix\":\"/v\",\"scheme\":\"http\"",
            b"",
            b"",
            "Missing authority",
        ),
        (
            b"\"prefix\":\"/v\",\"scheme\":\"http\",\"authority\":1",
            b"",
            b"",
            "Kind authority",
        ),
        (
            b"\"prefix\":\"/v\",\"scheme\":\"ftp\",\"authority\":\"h\"",
            b"",
            b"",
            "Range authority",
        ),
        (
            b"\"prefix\":\"/v\",\"scheme\":\"http\",\"authority\":\"h/x\"",
            b"",
            b"",
            "Range authority",
        ),
    ];
    for (place, key, audience, expected) in rows {
        let row = joined(alloc, &[b"\"routes\":[{", place, key, audience, b"}]"])?;
        assert_eq!(rt; answer(alloc, b"routes", &row)?.as_str(), expected);
    }
    Ok(())
}

#[test]
fn a_route_has_a_key_and_an_audience(rt: HostRuntime) -> Result<(), Fail> {
    let alloc = rt.alloc();
    let rows: [(&[u8], &[u8], &[u8], &str); 7] = [
        (PLACED, b"", b"", "Missing kid"),
        (
            PLACED,
            b",\"kid\":\"k2\",\"issuer\":\"cp\",\"secret\":\"AQ\"",
            b"",
            "ShortKey k2",
        ),
        (PLACED, KEYED, b"", "Missing audience"),
        (PLACED, KEYED, b",\"audience\":{}", "Kind audience"),
        (PLACED, KEYED, b",\"audience\":\"\"", "Range audience"),
        (PLACED, KEYED, b",\"audience\":\"b\"", "read"),
        (
            b"\"prefix\":\"/v\",\"scheme\":\"HTTP\",\"authority\":\"H:80\"",
            KEYED,
            b",\"audience\":\"b\"",
            "read",
        ),
    ];
    for (place, key, audience, expected) in rows {
        let row = joined(alloc, &[b"\"routes\":[{", place, key, audience, b"}]"])?;
        assert_eq!(rt; answer(alloc, b"routes", &row)?.as_str(), expected);
    }
    Ok(())
}

// So many of the same element with commas between them.
fn repeated(alloc: Global, element: &[u8], count: usize) -> Result<Vec<u8>, Fail> {
    let mut text = Vec::from_slice(alloc, element)?;
    for _ in 1..count {
        text.push(b',')?;
        text.extend_from_slice(element)?;
    }
    Ok(text)
}

// A member that is a list of so many of the same element.
fn list_row(alloc: Global, name: &[u8], element: &[u8], count: usize) -> Result<Vec<u8>, Fail> {
    let list = repeated(alloc, element, count)?;
    joined(alloc, &[b"\"", name, b"\":[", &list, b"]"])
}

// So many letters between two texts.
fn long_row(alloc: Global, front: &[u8], count: usize, back: &[u8]) -> Result<Vec<u8>, Fail> {
    let middle = vec![in alloc; b'a'; count]?;
    joined(alloc, &[front, &middle, back])
}

#[test]
fn the_length_is_tried_before_the_elements(rt: HostRuntime) -> Result<(), Fail> {
    let alloc = rt.alloc();
    let rows: [(&[u8], &[u8], usize, &str); 10] = [
        (b"keys", b"1", 64, "Kind keys"),
        (b"keys", b"1", 65, "Range keys"),
        (b"issuers", b"\"cp\"", 64, "read"),
        (b"issuers", b"1", 65, "Range issuers"),
        (b"audience", b"\"e\"", 64, "read"),
        (b"audience", b"1", 65, "Range audience"),
        (b"extensions", b"1", 32, "Kind extensions"),
        (b"extensions", b"1", 33, "Range extensions"),
        (b"routes", b"1", 16, "Kind routes"),
        (b"routes", b"1", 17, "Range routes"),
    ];
    for (name, element, count, expected) in rows {
        let row = list_row(alloc, name, element, count)?;
        assert_eq!(rt; answer(alloc, name, &row)?.as_str(), expected);
    }
    Ok(())
}

#[test]
fn texts_have_their_longest(rt: HostRuntime) -> Result<(), Fail> {
    let alloc = rt.alloc();
    let rows: [(&[u8], &[u8], usize, &[u8], &str); 6] = [
        (b"edge", b"\"edge\":\"", 128, b"\"", "read"),
        (b"edge", b"\"edge\":\"", 129, b"\"", "Range edge"),
        (b"attribute", b"\"attribute\":\"", 64, b"\"", "read"),
        (
            b"attribute",
            b"\"attribute\":\"",
            65,
            b"\"",
            "Range attribute",
        ),
        (
            b"routes",
            b"\"routes\":[{\"prefix\":\"/",
            1023,
            b"\"}]",
            "Missing scheme",
        ),
        (
            b"routes",
            b"\"routes\":[{\"prefix\":\"/",
            1024,
            b"\"}]",
            "Range prefix",
        ),
    ];
    for (name, front, count, back, expected) in rows {
        let row = long_row(alloc, front, count, back)?;
        assert_eq!(rt; answer(alloc, name, &row)?.as_str(), expected);
    }
    Ok(())
}

#[test]
fn a_text_has_at_most_127_levels(rt: HostRuntime) -> Result<(), Fail> {
    let alloc = rt.alloc();
    for (count, expected) in [(126, "read"), (127, "Json")] {
        let opening = vec![in alloc; b'['; count]?;
        let closing = vec![in alloc; b']'; count]?;
        let row = joined(alloc, &[b"\"deep\":", &opening, &closing])?;
        assert_eq!(rt; answer(alloc, b"deep", &row)?.as_str(), expected);
    }
    Ok(())
}

// An edge with a route, in pieces.
const EDGE_A: [&[u8]; 9] = [
    b"{\"edge\":\"a\",\"scheme\":\"https\",\"keys\":[",
    b"{\"kid\":\"kp\",\"issuer\":\"cp\",\"secret\":\"AQEBAQEBAQEBAQEBAQEBAQEBAQEBAQEBAQEBAQEBAQE\"},",
    b"{\"kid\":\"ka\",\"issuer\":\"cdn-a\",\"secret\":\"AgICAgICAgICAgICAgICAgICAgICAgICAgICAgICAgI\"}",
    b"],\"issuers\":[\"cp\",\"cdn-a\"],\"audience\":[\"cdn-a\"],\"sign_kid\":\"ka\",",
    b"\"routes\":[{\"prefix\":\"/b/\",\"scheme\":\"https\",\"authority\":\"b.example\",",
    b"\"kid\":\"kab\",\"issuer\":\"cdn-a\",",
    b"\"secret\":\"AwMDAwMDAwMDAwMDAwMDAwMDAwMDAwMDAwMDAwMDAwM\",",
    b"\"audience\":\"cdn-b\"}]}",
    b"\n",
];

// The edge that the route leads to, in pieces.
const EDGE_B: [&[u8]; 5] = [
    b"{\"edge\":\"b\",\"scheme\":\"https\",\"keys\":[",
    b"{\"kid\":\"kab\",\"issuer\":\"cdn-a\",\"secret\":\"AwMDAwMDAwMDAwMDAwMDAwMDAwMDAwMDAwMDAwMDAwM\"},",
    b"{\"kid\":\"kb\",\"issuer\":\"cdn-b\",\"secret\":\"BAQEBAQEBAQEBAQEBAQEBAQEBAQEBAQEBAQEBAQEBAQ\"}",
    b"],\"issuers\":[\"cdn-a\",\"cdn-b\"],\"audience\":[\"cdn-b\"],\"sign_kid\":\"kb\"}",
    b"\n",
];

fn has_texts(texts: &[Text], expected: &[&str]) -> bool {
    if texts.len() != expected.len() {
        return false;
    }
    for i in 0..texts.len() {
        if texts[i].text() != expected[i] {
            return false;
        }
    }
    true
}

#[test]
fn an_edge_with_a_route_is_read(rt: HostRuntime) -> Result<(), Fail> {
    let alloc = rt.alloc();
    let text = joined(alloc, &EDGE_A)?;
    let conf = read_conf(alloc, &text)?;
    assert_eq!(rt; conf.edge().text(), "a");
    assert_eq!(rt; conf.scheme().text(), "https");
    assert_eq!(rt; conf.room(), 65_536);
    let site = conf.site();
    assert_eq!(rt; site.sign(), 1);
    let profile = site.profile();
    assert_eq!(rt; profile.ring.keys().len(), 2);
    assert_eq!(rt; profile.ring.keys()[1].kid(), b"ka".as_slice());
    assert_eq!(rt; profile.ring.keys()[1].issuer(), b"cdn-a".as_slice());
    assert_eq!(rt; profile.attribute.text(), b"URISigningPackage".as_slice());
    assert!(rt; has_texts(profile.issuers.rows(), &["cp", "cdn-a"]));
    assert!(rt; has_texts(profile.audience.rows(), &["cdn-a"]));
    assert_eq!(rt; profile.extensions.as_slice().len(), 0);
    let routes = site.routes().rows();
    assert_eq!(rt; routes.len(), 1);
    assert_eq!(rt; routes[0].prefix().text(), "/b/");
    assert_eq!(rt; routes[0].place().scheme(), b"https".as_slice());
    assert_eq!(rt; routes[0].place().authority(), b"b.example".as_slice());
    assert_eq!(rt; routes[0].key().kid(), b"kab".as_slice());
    assert_eq!(rt; routes[0].audience().text(), "cdn-b");
    Ok(())
}

#[test]
fn an_edge_without_routes_is_read(rt: HostRuntime) -> Result<(), Fail> {
    let alloc = rt.alloc();
    let text = joined(alloc, &EDGE_B)?;
    let conf = read_conf(alloc, &text)?;
    assert_eq!(rt; conf.edge().text(), "b");
    assert_eq!(rt; conf.site().sign(), 1);
    assert_eq!(rt; conf.site().routes().rows().len(), 0);
    assert!(rt; has_texts(conf.site().profile().issuers.rows(), &["cdn-a", "cdn-b"]));
    Ok(())
}

// Whether a setting is of those words, or of that number.
fn is_told(setting: &Setting, words: &str, number: u64) -> bool {
    match setting {
        Setting::Words(text) => text.text() == words,
        Setting::Number(most) => *most == number,
        _ => false,
    }
}

#[test]
fn extensions_are_kept_in_their_order(rt: HostRuntime) -> Result<(), Fail> {
    let alloc = rt.alloc();
    let x = b"{\"claim\":\"x\",\"test\":\"equals\",\"setting\":\"yes\"},";
    let y = b"{\"claim\":\"y\",\"test\":\"at_most\",\"setting\":10}";
    let row = joined(alloc, &[b"\"extensions\":[", x, y, b"]"])?;
    let text = text_with(alloc, b"extensions", &row)?;
    let conf = read_conf(alloc, &text)?;
    let listed = conf.site().profile().extensions.as_slice();
    assert_eq!(rt; listed.len(), 2);
    assert_eq!(rt; listed[0].claim.text(), "x");
    assert_eq!(rt; listed[0].kind, TestKind::Equals);
    assert!(rt; is_told(&listed[0].setting, "yes", 0));
    assert_eq!(rt; listed[1].kind, TestKind::AtMost);
    assert!(rt; is_told(&listed[1].setting, "", 10));
    Ok(())
}
