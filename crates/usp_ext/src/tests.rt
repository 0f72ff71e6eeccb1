//! What the tests of claims answer, and which claims may be added.

use crate::{
    ExtFault, Extensions, Facts, Kit, Setting, TestKind, equals, is_any, is_at_most, is_one_of,
    is_path_prefix,
};
use std::alloc::Global;
use std::test::Fail;
use usp_json::{Items, Json, Text, read_members};

// Texts as the setting of a list.
fn several(alloc: Global, texts: &[&str]) -> Result<Items, Fail> {
    let mut items = Items::new(alloc);
    for text in texts {
        items.push(Json::Str(Text::of(alloc, *text)?))?;
    }
    Ok(items)
}

// Each kind with its shape of setting, and with another.
fn fill(alloc: Global, extensions: &mut Extensions) -> Result<(), Fail> {
    let mut mixed = several(alloc, &["a"])?;
    mixed.push(Json::Null)?;
    let words = Text::of(alloc, "a")?;
    let rows = [
        ("any", TestKind::Any, Setting::Nothing),
        ("equals", TestKind::Equals, Setting::Words(words)),
        (
            "one_of",
            TestKind::OneOf,
            Setting::Several(several(alloc, &["a", "b"])?),
        ),
        ("at_most", TestKind::AtMost, Setting::Number(10)),
        ("path_prefix", TestKind::PathPrefix, Setting::Nothing),
        ("any 1", TestKind::Any, Setting::Number(1)),
        ("equals null", TestKind::Equals, Setting::Nothing),
        ("one_of mixed", TestKind::OneOf, Setting::Several(mixed)),
        ("at_most null", TestKind::AtMost, Setting::Nothing),
        (
            "at_most 2^53",
            TestKind::AtMost,
            Setting::Number(9_007_199_254_740_992),
        ),
        ("path_prefix 1", TestKind::PathPrefix, Setting::Number(1)),
    ];
    for (claim, kind, setting) in rows {
        extensions.push(Text::of(alloc, claim)?, kind, setting)?;
    }
    Ok(())
}

// What the test of the claim answers for the member `v`.
fn answer(
    alloc: Global,
    kit: &Kit,
    extensions: &Extensions,
    claim: &str,
    members: &[u8],
) -> Result<Option<bool>, Fail> {
    let members = read_members(alloc, members)?;
    let facts = Facts {
        path: b"/vx",
        moment: 50,
    };
    Ok(match members.find(b"v") {
        None => None,
        Some(value) => extensions.holds(kit, claim.as_bytes(), value, &facts),
    })
}

#[test]
fn each_test_passes_what_its_kind_means(rt: HostRuntime) -> Result<(), Fail> {
    let alloc = rt.alloc();
    let kit = Kit::new(is_any, equals, is_one_of, is_at_most, is_path_prefix);
    let mut extensions = Extensions::empty(alloc);
    fill(alloc, &mut extensions)?;
    let rows: [(&str, &[u8], Option<bool>); 28] = [
        ("any", b"{\"v\":null}", Some(true)),
        ("any", b"{\"v\":[1]}", Some(true)),
        ("any 1", b"{\"v\":null}", Some(false)),
        ("equals", b"{\"v\":\"a\"}", Some(true)),
        ("equals", b"{\"v\":\"\\u0061\"}", Some(true)),
        ("equals", b"{\"v\":\"ab\"}", Some(false)),
        ("equals", b"{\"v\":[\"a\"]}", Some(false)),
        ("equals null", b"{\"v\":null}", Some(false)),
        ("one_of", b"{\"v\":\"b\"}", Some(true)),
        ("one_of", b"{\"v\":\"c\"}", Some(false)),
        ("one_of", b"{\"v\":[\"b\"]}", Some(false)),
        ("one_of mixed", b"{\"v\":\"a\"}", Some(false)),
        ("at_most", b"{\"v\":10}", Some(true)),
        ("at_most", b"{\"v\":0}", Some(true)),
        ("at_most", b"{\"v\":11}", Some(false)),
        ("at_most", b"{\"v\":1e1}", Some(false)),
        ("at_most", b"{\"v\":1.0}", Some(false)),
        ("at_most", b"{\"v\":-1}", Some(false)),
        ("at_most", b"{\"v\":\"10\"}", Some(false)),
        ("at_most null", b"{\"v\":0}", Some(false)),
        ("at_most 2^53", b"{\"v\":0}", Some(false)),
        ("path_prefix", b"{\"v\":\"/v\"}", Some(true)),
        ("path_prefix", b"{\"v\":\"\"}", Some(true)),
        ("path_prefix", b"{\"v\":\"/w\"}", Some(false)),
        ("path_prefix", b"{\"v\":\"/vxy\"}", Some(false)),
        ("path_prefix 1", b"{\"v\":\"/v\"}", Some(false)),
        ("y", b"{\"v\":null}", None),
        ("ANY", b"{\"v\":null}", None),
    ];
    for (claim, members, expected) in rows {
        assert_eq!(rt; answer(alloc, &kit, &extensions, claim, members)?, expected);
    }
    Ok(())
}

#[test]
fn a_claim_has_one_test(rt: HostRuntime) -> Result<(), Fail> {
    let alloc = rt.alloc();
    let mut extensions = Extensions::empty(alloc);
    let rows = [
        ("x", Ok(()), 1),
        ("x", Err(ExtFault::Repeat), 1),
        ("", Ok(()), 2),
        ("y", Ok(()), 3),
        ("", Err(ExtFault::Repeat), 3),
    ];
    for (claim, expected, count) in rows {
        let added = extensions.push(Text::of(alloc, claim)?, TestKind::Any, Setting::Nothing);
        assert_eq!(rt; added, expected);
        assert_eq!(rt; extensions.as_slice().len(), count);
    }
    Ok(())
}

#[test]
fn says_what_to_mend(rt: HostRuntime) -> Result<(), Fail> {
    let alloc = rt.alloc();
    let table = [
        (
            ExtFault::Repeat,
            "a claim has two tests: take out one of them",
            false,
        ),
        (ExtFault::NoMemory, "out of memory", true),
    ];
    for (fault, expected, memory) in table {
        assert_eq!(rt; fault.to_string(alloc)?.as_str(), expected);
        assert_eq!(rt; fault.is_memory(), memory);
    }
    Ok(())
}

// The example of the crate's first page.
#[test]
fn shows_the_example(rt: HostRuntime) -> Result<(), Fail> {
    let alloc = rt.alloc();
    let mut extensions = Extensions::empty(alloc);
    extensions.push(
        Text::of(alloc, "tier")?,
        TestKind::AtMost,
        Setting::Number(2),
    )?;
    let kit = Kit::new(is_any, equals, is_one_of, is_at_most, is_path_prefix);
    let facts = Facts {
        path: b"/v",
        moment: 1500,
    };
    assert_eq!(rt;
        extensions.holds(&kit, b"tier", &Json::Null, &facts),
        Some(false)
    );
    assert_eq!(rt; extensions.holds(&kit, b"other", &Json::Null, &facts), None);
    Ok(())
}
