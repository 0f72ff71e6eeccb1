//! Claim sets that are read, and payloads that have none.

ghost use Rattle.std.specs.Prelude.{◌≤◌, length};
ghost use Rattle.usp_json.specs.Canon.{canon_members};
ghost use Rattle.usp_claims.specs.Table.{IsClaimSet};

use crate::{ClaimFault, ClaimName, Claims, MAX_PAYLOAD, NoMemory, read_claims, text};
use std::alloc::Global;
use std::test::Fail;
use usp_json::{Json, JsonFault, NumText, Text};

const ALL: &[u8] =
    b"{\"iss\":\"cp\",\"sub\":[],\"aud\":[\"a\",\"b\"],\"exp\":9007199254740991,\"nbf\":4,\"iat\":3,\
\"jti\":\"n\",\"cdniv\":1,\"cdnicrit\":\"x\",\"cdniuc\":\"hash:x\",\
\"cdniets\":4503599627370496,\"cdnistt\":1,\"cdnistd\":0,\"x\":null}";

// Whether a claim is there with this text.
fn is_text(found: Option<&[u8]>, expected: &[u8]) -> bool {
    match found {
        None => false,
        Some(text) => text == expected,
    }
}

#[test]
fn each_claim_of_a_text_is_read(rt: HostRuntime) -> Result<(), Fail> {
    let alloc = rt.alloc();
    let claims = read_claims(alloc, ALL)?;
    assert!(rt; is_text(claims.iss(), b"cp"));
    assert!(rt; is_text(claims.jti(), b"n"));
    assert!(rt; is_text(claims.crit(), b"x"));
    assert_eq!(rt; claims.uc(), b"hash:x".as_slice());
    Ok(())
}

#[test]
fn each_claim_of_a_number_is_read(rt: HostRuntime) -> Result<(), Fail> {
    let alloc = rt.alloc();
    let claims = read_claims(alloc, ALL)?;
    assert_eq!(rt; claims.exp(), Some(9_007_199_254_740_991));
    assert_eq!(rt; claims.nbf(), Some(4));
    assert_eq!(rt; claims.iat(), Some(3));
    assert_eq!(rt; claims.version(), Some(1));
    assert_eq!(rt; claims.ets(), Some(4_503_599_627_370_496));
    assert_eq!(rt; claims.stt(), Some(1));
    assert_eq!(rt; claims.std(), Some(0));
    Ok(())
}

#[test]
fn audiences_and_other_claims_are_found(rt: HostRuntime) -> Result<(), Fail> {
    let alloc = rt.alloc();
    let claims = read_claims(alloc, ALL)?;
    assert_eq!(rt; claims.aud_has(b"b"), Some(true));
    assert_eq!(rt; claims.aud_has(b"c"), Some(false));
    assert!(rt; claims.has_encrypted());
    assert!(rt; matches!(claims.value(b"x"), Some(Json::Null)));
    assert!(rt; claims.value(b"y").is_none());
    assert_eq!(rt; claims.text_len(), ALL.len());
    Ok(())
}

#[test]
fn the_canonical_text_has_no_white_space(rt: HostRuntime) -> Result<(), Fail> {
    let alloc = rt.alloc();
    let claims = read_claims(alloc, b"{\"cdniuc\":\"hash:x\",\r\n \"exp\":1}")?;
    assert_eq!(rt;
        text(alloc, &claims)?.as_slice(),
        b"{\"cdniuc\":\"hash:x\",\"exp\":1}".as_slice()
    );
    assert_eq!(rt; claims.text_len(), 27);
    assert_eq!(rt; claims.iss(), None);
    assert_eq!(rt; claims.aud_has(b"a"), None);
    assert!(rt; !claims.has_encrypted());
    Ok(())
}

fn fault_of(alloc: Global, payload: &[u8]) -> Option<ClaimFault> {
    read_claims(alloc, payload).err()
}

#[test]
fn the_first_fault_of_a_payload_is_named(rt: HostRuntime) -> Result<(), Fail> {
    let alloc = rt.alloc();
    let rows: [(&[u8], Option<ClaimFault>); 13] = [
        (b"{\"aud\":\"a\",\"cdniuc\":\"\"}", None),
        (
            b"{\"cdniuc\":\"hash:x\",\"exp\":1,\"exp\":2}",
            Some(ClaimFault::Json(JsonFault::Duplicate { at: 31 })),
        ),
        (
            b"{\"cdniuc\":\"hash:x\"",
            Some(ClaimFault::Json(JsonFault::Syntax { at: 18 })),
        ),
        (b"{\"exp\":1}", Some(ClaimFault::NoContainer)),
        (
            b"{\"cdniuc\":1}",
            Some(ClaimFault::Kind {
                name: ClaimName::Uc,
            }),
        ),
        (
            b"{\"cdniuc\":\"hash:x\",\"exp\":1.0}",
            Some(ClaimFault::Range {
                name: ClaimName::Exp,
            }),
        ),
        (
            b"{\"cdniuc\":\"hash:x\",\"exp\":-1}",
            Some(ClaimFault::Range {
                name: ClaimName::Exp,
            }),
        ),
        (
            b"{\"exp\":9007199254740992}",
            Some(ClaimFault::Range {
                name: ClaimName::Exp,
            }),
        ),
        (
            b"{\"cdniets\":4503599627370497}",
            Some(ClaimFault::Range {
                name: ClaimName::Ets,
            }),
        ),
        (
            b"{\"exp\":\"1\",\"iss\":1}",
            Some(ClaimFault::Kind {
                name: ClaimName::Iss,
            }),
        ),
        (
            b"{\"iat\":true,\"nbf\":1e2}",
            Some(ClaimFault::Range {
                name: ClaimName::Nbf,
            }),
        ),
        (
            b"{\"aud\":[\"a\",1]}",
            Some(ClaimFault::Kind {
                name: ClaimName::Aud,
            }),
        ),
        (
            b"{\"cdnicrit\":null}",
            Some(ClaimFault::Kind {
                name: ClaimName::Crit,
            }),
        ),
    ];
    for (payload, expected) in rows {
        assert_eq!(rt; fault_of(alloc, payload), expected);
    }
    Ok(())
}

#[test]
fn a_payload_has_at_most_4096_bytes(rt: HostRuntime) -> Result<(), Fail> {
    let alloc = rt.alloc();
    let mut payload = vec![in alloc; b' '; 4077]?;
    payload.extend_from_slice(b"{\"cdniuc\":\"hash:x\"}")?;
    assert_eq!(rt; fault_of(alloc, &payload), None);
    payload.push(b' ')?;
    assert_eq!(rt; fault_of(alloc, &payload), Some(ClaimFault::TooLong));
    Ok(())
}

// The claims with that second as `exp`.
#[tactic(auto, using(crate::proofs::Samples::expiry_set, crate::proofs::Samples::expiry_short))]
fn with_expiry(alloc: Global, claims: Claims, second: u32) -> Result<Claims, NoMemory>
    requires set { IsClaimSet claims }
    requires short { length (canon_members claims) ≤ MAX_PAYLOAD }
{
    let value = Json::Num(NumText::whole(alloc, u64::from(second))?);
    match claims.with(alloc, ClaimName::Exp, value) {
        Ok(changed) => Ok(changed),
        Err((_, fault)) => Err(fault),
    }
}

// The claims with that text as `iss`.
#[tactic(auto, using(crate::proofs::Samples::issuer_set, crate::proofs::Samples::issuer_short))]
fn with_issuer(alloc: Global, claims: Claims, issuer: &str) -> Result<Claims, NoMemory>
    requires set { IsClaimSet claims }
    requires short { length (canon_members claims) ≤ MAX_PAYLOAD }
    requires few { length issuer.now ≤ 100 }
{
    let value = Json::Str(Text::of(alloc, issuer)?);
    match claims.with(alloc, ClaimName::Iss, value) {
        Ok(changed) => Ok(changed),
        Err((_, fault)) => Err(fault),
    }
}

// Whether the claims and a copy of them have that text.
fn has_spelling(alloc: Global, claims: &Claims, expected: &[u8]) -> Result<bool, NoMemory> {
    let copied = claims.copy(alloc)?;
    let whole = text(alloc, claims)?;
    let again = text(alloc, &copied)?;
    Ok(
        whole.as_slice() == expected
            && again.as_slice() == expected
            && claims.text_len() == expected.len()
            && copied.text_len() == expected.len(),
    )
}

#[test]
fn a_present_claim_keeps_its_place_and_an_absent_one_goes_last(
    rt: HostRuntime,
) -> Result<(), Fail> {
    let alloc = rt.alloc();
    let numbers: [(&[u8], u32, &[u8]); 3] = [
        (
            b"{\"cdniuc\":\"regex:a\",\"cdnistt\":1,\"cdniets\":30}",
            80,
            b"{\"cdniuc\":\"regex:a\",\"cdnistt\":1,\"cdniets\":30,\"exp\":80}",
        ),
        (
            b"{\"iss\":\"cp\",\"exp\":100,\"cdniuc\":\"hash:x\"}",
            4294967295,
            b"{\"iss\":\"cp\",\"exp\":4294967295,\"cdniuc\":\"hash:x\"}",
        ),
        (
            b"{ \"cdniuc\":\"\\u0041\", \"x\":[1, {\"exp\":2}], \"exp\":1 }",
            0,
            b"{\"cdniuc\":\"A\",\"x\":[1,{\"exp\":2}],\"exp\":0}",
        ),
    ];
    for (payload, second, expected) in numbers {
        let claims = with_expiry(alloc, read_claims(alloc, payload)?, second)?;
        assert!(rt; has_spelling(alloc, &claims, expected)?);
        assert_eq!(rt; claims.exp(), Some(u64::from(second)));
    }
    let claims = with_issuer(
        alloc,
        read_claims(alloc, b"{\"iss\":\"cp\",\"cdniuc\":\"\"}")?,
        "cdn-\"a\"",
    )?;
    assert!(rt;
        has_spelling(
            alloc,
            &claims,
            b"{\"iss\":\"cdn-\\\"a\\\"\",\"cdniuc\":\"\"}"
        )?
    );
    Ok(())
}

// The example of the crate's first page.
#[test]
fn shows_the_example(rt: HostRuntime) -> Result<(), Fail> {
    let alloc = rt.alloc();
    let claims = read_claims(alloc, b"{ \"cdniuc\" : \"regex:.*\", \"exp\" : 1500 }")?;
    assert_eq!(rt; claims.exp(), Some(1500));
    assert_eq!(rt; claims.uc(), b"regex:.*".as_slice());
    assert_eq!(rt;
        text(alloc, &claims)?.as_slice(),
        b"{\"cdniuc\":\"regex:.*\",\"exp\":1500}".as_slice()
    );
    Ok(())
}

#[test]
fn says_what_to_mend(rt: HostRuntime) -> Result<(), Fail> {
    let alloc = rt.alloc();
    let name = ClaimName::Exp;
    let table: [(ClaimFault, &str); 6] = [
        (
            ClaimFault::TooLong,
            "more than 4096 bytes of claims: sign fewer of them",
        ),
        (
            ClaimFault::Json(JsonFault::Many { at: 9 }),
            "more than 64 members: end the object at byte 9",
        ),
        (
            ClaimFault::Kind { name },
            "`exp` is not of its kind: see the table of claims",
        ),
        (
            ClaimFault::Range { name },
            "`exp` is out of its range: write digits alone, at most 9007199254740991, or 4503599627370496 for a period",
        ),
        (
            ClaimFault::NoContainer,
            "no `cdniuc`: add the container of the URI",
        ),
        (ClaimFault::NoMemory, "out of memory"),
    ];
    for (fault, expected) in table {
        assert_eq!(rt; fault.to_string(alloc)?.as_str(), expected);
        assert_eq!(rt; fault.is_memory(), fault == ClaimFault::NoMemory);
    }
    assert_eq!(rt; NoMemory.to_string(alloc)?.as_str(), "out of memory");
    Ok(())
}
