//! Outside vectors, and each public call once.
use crate::ring::verifier_named;
use crate::{
    HeaderFault, Key, KeyFault, MAX_IDENTITY, MAX_KID, MAX_PAYLOAD, MAX_TOKEN, NoMemory, Parts,
    Ring, RingFault, Token, TokenFault, TokenRef, decode, decode_base64url, encode_digest,
    has_identity, is_base64url, mac, read_header, seal, split, verifier,
};
use base64::engine::general_purpose::URL_SAFE_NO_PAD;
use std::alloc::Global;
use std::test::Fail;
use usp_json::{JsonFault, Text};

// The token of RFC 7515 appendix A.1, and its key.
const TOKEN: &str = "eyJ0eXAiOiJKV1QiLA0KICJhbGciOiJIUzI1NiJ9.\
     eyJpc3MiOiJqb2UiLA0KICJleHAiOjEzMDA4MTkzODAsDQogImh0dHA6Ly9leGFtcGxlLmNvbS9pc19yb290Ijp0cnVlfQ.\
     dBjftJeZ4CVP-mB92K27uhbUJU1p1r_wW1gFWFOEjXk";

const KEY: &str =
    "AyM1SysPpbyDfgZld3umj1qzKObwVMkoqQ-EstJQLr_T-1qS0gZH75aKtMN3Yj0iPS4hcgUuTwjAzZr1Z9CAow";

// The text without its last letter, and another letter there.
fn with_last(alloc: Global, text: &str, letter: u8) -> Result<Vec<u8>, Fail> {
    let mut changed = text.as_bytes().to_vec(alloc)?;
    let _ = changed.pop();
    changed.push(letter)?;
    Ok(changed)
}

fn ring_of(alloc: Global, secret: &[u8]) -> Result<Ring, Fail> {
    let mut keys = Vec::new(alloc);
    keys.push(Key::new(alloc, b"k0", b"cp", &[9; 32])?)?;
    keys.push(Key::new(alloc, b"k1", b"cp", secret)?)?;
    Ok(Ring::new(keys)?)
}

#[test]
fn a_published_token_is_verified_and_its_last_letter_counts(rt: HostRuntime) -> Result<(), Fail> {
    let alloc = rt.alloc();
    let secret = URL_SAFE_NO_PAD.decode(alloc, KEY.as_bytes())?;
    let ring = ring_of(alloc, &secret)?;
    let parts = split(TOKEN.as_bytes())?;
    let header = read_header(alloc, &parts)?;
    assert!(rt; header.kid.is_none());
    assert_eq!(rt; verifier(&ring, &header, &parts), Some(1));
    assert_eq!(rt; verifier_named(&ring, None, &parts), Some(1));
    assert_eq!(rt;
        verifier_named(&ring, Some(b"k1".as_slice()), &parts),
        Some(1)
    );
    assert_eq!(rt; verifier_named(&ring, Some(b"k0".as_slice()), &parts), None);
    let spare_bits = with_last(alloc, TOKEN, b'l')?;
    assert!(rt; matches!(split(&spare_bits), Err(TokenFault::NotB64 { part: 3 })));
    let other = with_last(alloc, TOKEN, b'g')?;
    assert_eq!(rt; verifier_named(&ring, None, &split(&other)?), None);
    Ok(())
}

// Test cases 1, 2 and 6 of RFC 4231: a key of 20 bytes, one shorter than the digest, and one longer than a block.
#[test]
fn published_macs(rt: HostRuntime) -> Result<(), Fail> {
    let first = [
        0xb0, 0x34, 0x4c, 0x61, 0xd8, 0xdb, 0x38, 0x53, 0x5c, 0xa8, 0xaf, 0xce, 0xaf, 0x0b, 0xf1,
        0x2b, 0x88, 0x1d, 0xc2, 0x00, 0xc9, 0x83, 0x3d, 0xa7, 0x26, 0xe9, 0x37, 0x6c, 0x2e, 0x32,
        0xcf, 0xf7,
    ];
    assert_eq!(rt; mac(&[0x0b; 20], b"Hi There"), first);
    let second = [
        0x5b, 0xdc, 0xc1, 0x46, 0xbf, 0x60, 0x75, 0x4e, 0x6a, 0x04, 0x24, 0x26, 0x08, 0x95, 0x75,
        0xc7, 0x5a, 0x00, 0x3f, 0x08, 0x9d, 0x27, 0x39, 0x83, 0x9d, 0xec, 0x58, 0xb9, 0x64, 0xec,
        0x38, 0x43,
    ];
    assert_eq!(rt; mac(b"Jefe", b"what do ya want for nothing?"), second);
    let third = [
        0x60, 0xe4, 0x31, 0x59, 0x1e, 0xe0, 0xb6, 0x7f, 0x0d, 0x8a, 0x26, 0xaa, 0xcb, 0xf5, 0xb7,
        0x7f, 0x8e, 0x0b, 0xc6, 0x21, 0x37, 0x28, 0xc5, 0x14, 0x05, 0x46, 0x04, 0x0f, 0x0e, 0xe3,
        0x7f, 0x54,
    ];
    let text = b"Test Using Larger Than Block-Size Key - Hash Key First";
    assert_eq!(rt; mac(&[0xaa; 131], text), third);
    Ok(())
}

#[test]
fn a_sealed_token_is_split_and_verified(rt: HostRuntime) -> Result<(), Fail> {
    let alloc = rt.alloc();
    let key = Key::new(alloc, b"k1", b"cp", &[1; 32])?;
    let token = seal(
        alloc,
        &key,
        b"{\"cdniuc\":\"regex:^http://h/\",\"exp\":100}",
    )?;
    let begins =
        "eyJhbGciOiJIUzI1NiIsImtpZCI6ImsxIn0.eyJjZG5pdWMiOiJyZWdleDpeaHR0cDovL2gvIiwiZXhwIjoxMDB9.";
    assert!(rt; token.text().starts_with(begins.as_bytes()));
    assert_eq!(rt; token.text().len(), begins.len() + 43);
    let parts = split(token.text())?;
    let header = read_header(alloc, &parts)?;
    assert_eq!(rt; header.kid.as_ref().map(|kid| kid.text()), Some("k1"));
    assert_eq!(rt;
        verifier(&ring_of(alloc, &[1; 32])?, &header, &parts),
        Some(1)
    );
    assert_eq!(rt;
        verifier_named(&ring_of(alloc, &[2; 32])?, None, &parts),
        None
    );
    let copy = Token::of(alloc, &parts)?;
    assert_eq!(rt; copy.text(), token.text());
    let same = TokenRef::of(&parts);
    assert_eq!(rt; same.text(), token.text());
    assert_eq!(rt; same.to_token(alloc)?.text(), token.text());
    let payload = vec![in alloc; b' '; MAX_PAYLOAD]?;
    let longest = seal(alloc, &key, &payload)?;
    assert_eq!(rt; longest.text().len(), 8080);
    assert!(rt; split(longest.text()).is_ok());
    Ok(())
}

// The fault of a text, or None where it is a token.
fn fault_of(text: &[u8]) -> Option<TokenFault> {
    split(text).err()
}

#[test]
fn the_first_fault_of_a_token_is_named(rt: HostRuntime) -> Result<(), Fail> {
    let alloc = rt.alloc();
    let rows: [(&str, Option<TokenFault>); 10] = [
        ("..", None),
        ("QQ.QUI.QUJD", None),
        ("", Some(TokenFault::NotThree)),
        ("QQ.QQ", Some(TokenFault::NotThree)),
        ("QQ.QQ.QQ.QQ", Some(TokenFault::NotThree)),
        ("Q.QR.Q", Some(TokenFault::NotB64 { part: 1 })),
        ("QQ.QR.Q", Some(TokenFault::NotB64 { part: 2 })),
        ("QQ.QQ.QQ=", Some(TokenFault::NotB64 { part: 3 })),
        ("QQ.QQ.+/", Some(TokenFault::NotB64 { part: 3 })),
        ("QQ.QQ.QUJ", Some(TokenFault::NotB64 { part: 3 })),
    ];
    for (text, expected) in rows {
        assert_eq!(rt; fault_of(text.as_bytes()), expected);
    }
    let mut long = vec![in alloc; b'A'; MAX_TOKEN - 2]?;
    long.extend_from_slice(b"..")?;
    assert_eq!(rt; fault_of(&long), None);
    long.push(b'A')?;
    assert_eq!(rt; fault_of(&long), Some(TokenFault::TooLong));
    Ok(())
}

#[test]
fn a_token_is_decoded_where_it_is_split(rt: HostRuntime) -> Result<(), Fail> {
    let alloc = rt.alloc();
    let Some(token) = decode(alloc, TOKEN.as_bytes())? else {
        return Err(Fail::new("a token"));
    };
    let payload =
        b"{\"iss\":\"joe\",\r\n \"exp\":1300819380,\r\n \"http://example.com/is_root\":true}";
    assert_eq!(rt; token.payload(), payload.as_slice());
    assert_eq!(rt; token.parts().text(), TOKEN.as_bytes());
    assert!(rt; token.read_header(alloc)?.kid.is_none());
    let rows = ["", "QQ.QQ", "Q.QQ.QQ", "QQ.QR.QQ", "QQ.QQ.Q"];
    for text in rows {
        assert!(rt; decode(alloc, text.as_bytes())?.is_none());
    }
    Ok(())
}

// RFC 4648 section 10, in the alphabet of section 5 and without padding.
#[test]
fn base64url_is_decoded(rt: HostRuntime) -> Result<(), Fail> {
    let alloc = rt.alloc();
    let rows: [(&str, Option<&[u8]>); 9] = [
        ("", Some(b"")),
        ("Zg", Some(b"f")),
        ("Zm8", Some(b"fo")),
        ("Zm9vYmFy", Some(b"foobar")),
        ("-_8", Some(&[0xfb, 0xff])),
        ("Zg==", None),
        ("Zh", None),
        ("Z", None),
        ("+/8", None),
    ];
    for (text, expected) in rows {
        let bytes = decode_base64url(alloc, text.as_bytes())?;
        assert_eq!(rt; bytes.as_ref().map(|bytes| bytes.as_slice()), expected);
        assert_eq!(rt; is_base64url(text.as_bytes()), expected.is_some());
    }
    let digest = encode_digest(&[0xff; 32]);
    assert_eq!(rt;
        digest.as_slice(),
        b"__________________________________________8".as_slice()
    );
    Ok(())
}

fn key_fault(alloc: Global, kid: &[u8], issuer: &[u8], secret: &[u8]) -> Option<KeyFault> {
    Key::new(alloc, kid, issuer, secret).err()
}

#[test]
fn keys_and_rings_are_refused_by_their_first_fault(rt: HostRuntime) -> Result<(), Fail> {
    let alloc = rt.alloc();
    let rows: [(&[u8], &[u8], &[u8], Option<KeyFault>); 9] = [
        (b"a.B-9_", b"cp", &[0; 32], None),
        (&[b'k'; MAX_KID], &[b'i'; MAX_IDENTITY], &[0; 64], None),
        (b"", b"", b"", Some(KeyFault::BadKid)),
        (&[b'k'; 65], b"cp", &[0; 32], Some(KeyFault::BadKid)),
        (b"k~", b"cp", &[0; 32], Some(KeyFault::BadKid)),
        (b"k", b"c p", b"", Some(KeyFault::BadIssuer)),
        (b"k", &[b'i'; 129], &[0; 65], Some(KeyFault::BadIssuer)),
        (b"k", b"cp", &[0; 31], Some(KeyFault::ShortKey)),
        (b"k", b"cp", &[0; 65], Some(KeyFault::LongKey)),
    ];
    for (kid, issuer, secret, expected) in rows {
        assert_eq!(rt; key_fault(alloc, kid, issuer, secret), expected);
    }
    let key = Key::new(alloc, b"k1", b"cp", &[1; 32])?;
    assert_eq!(rt; key.issuer(), b"cp".as_slice());
    assert_eq!(rt; key.issuer_text(), "cp");
    assert_eq!(rt; key.kid_text(), "k1");
    assert!(rt; matches!(Ring::new(Vec::new(alloc)), Err(RingFault::NoKeys)));
    let mut keys = Vec::new(alloc);
    keys.push(key)?;
    keys.push(Key::new(alloc, b"k2", b"cp", &[1; 32])?)?;
    keys.push(Key::new(alloc, b"k1", b"cp", &[2; 32])?)?;
    assert!(rt; matches!(Ring::new(keys), Err(RingFault::Repeat { place: 2 })));
    Ok(())
}

// The fault of a header of this text, or None where it is right.
fn header_fault(alloc: Global, header: &str) -> Result<Option<HeaderFault>, Fail> {
    let mut token = URL_SAFE_NO_PAD
        .encode(alloc, header.as_bytes())?
        .into_bytes();
    token.extend_from_slice(b"..")?;
    let parts = split(&token)?;
    Ok(read_header(alloc, &parts).err())
}

#[test]
fn the_first_fault_of_a_header_is_named(rt: HostRuntime) -> Result<(), Fail> {
    let alloc = rt.alloc();
    let rows: [(&str, Option<HeaderFault>); 11] = [
        ("{\"alg\":\"HS256\"}", None),
        (" {\"x\":1,\"kid\":\"\",\"alg\":\"HS256\"}", None),
        (
            "{\"alg\":\"HS256\"",
            Some(HeaderFault::Json(JsonFault::Syntax { at: 14 })),
        ),
        ("{\"typ\":\"JWT\"}", Some(HeaderFault::NoAlg)),
        ("{\"alg\":\"none\"}", Some(HeaderFault::OtherAlg)),
        (
            "{\"alg\":256,\"crit\":[\"x\"]}",
            Some(HeaderFault::OtherAlg),
        ),
        (
            "{\"alg\":\"HS256\",\"crit\":[\"x\"],\"zip\":\"DEF\"}",
            Some(HeaderFault::Crit),
        ),
        (
            "{\"alg\":\"HS256\",\"enc\":null,\"zip\":\"DEF\"}",
            Some(HeaderFault::Zip),
        ),
        (
            "{\"alg\":\"HS256\",\"enc\":null,\"kid\":1}",
            Some(HeaderFault::Enc),
        ),
        ("{\"alg\":\"HS256\",\"kid\":1}", Some(HeaderFault::BadKid)),
        ("", Some(HeaderFault::Json(JsonFault::Syntax { at: 0 }))),
    ];
    for (header, expected) in rows {
        assert_eq!(rt; header_fault(alloc, header)?, expected);
    }
    Ok(())
}

#[test]
fn keys_are_found_by_their_names(rt: HostRuntime) -> Result<(), Fail> {
    let alloc = rt.alloc();
    let ring = ring_of(alloc, &[1; 32])?;
    assert_eq!(rt; ring.place_named(b"k1"), Some(1));
    assert_eq!(rt; ring.place_named(b"k"), None);
    assert_eq!(rt; ring.named(b"k0").map(|key| key.kid_text()), Some("k0"));
    assert!(rt; ring.named(b"").is_none());
    let known = [Text::of(alloc, "cp")?, Text::of(alloc, "cdn-a")?];
    assert!(rt; has_identity(&known, b"cdn-a"));
    assert!(rt; !has_identity(&known, b"cdn"));
    Ok(())
}

#[test]
fn faults_say_what_to_mend(rt: HostRuntime) -> Result<(), Fail> {
    assert_eq!(rt;
        NoMemory.to_string(rt.alloc())?.as_str(),
        "there was no memory"
    );
    let text = TokenFault::NotB64 { part: 2 }.to_string(rt.alloc())?;
    assert_eq!(rt;
        text.as_str(),
        "part 2 of the token must be base64url without padding"
    );
    let text = TokenFault::TooLong.to_string(rt.alloc())?;
    assert_eq!(rt; text.as_str(), "the token must have at most 8192 bytes");
    let text = HeaderFault::OtherAlg.to_string(rt.alloc())?;
    assert_eq!(rt; text.as_str(), "the header's `alg` must be HS256");
    let text = KeyFault::ShortKey.to_string(rt.alloc())?;
    assert_eq!(rt; text.as_str(), "the secret must have at least 32 bytes");
    let text = RingFault::Repeat { place: 2 }.to_string(rt.alloc())?;
    assert_eq!(rt;
        text.as_str(),
        "the key at place 2 must have a name of its own"
    );
    assert!(rt; HeaderFault::NoMemory.is_memory() && !HeaderFault::Crit.is_memory());
    assert!(rt; KeyFault::NoMemory.is_memory() && !KeyFault::BadKid.is_memory());
    Ok(())
}

// The lines of the crate's first page.
#[test]
fn the_first_page_runs(rt: HostRuntime) -> Result<(), Fail> {
    let alloc = rt.alloc();
    let key = Key::new(alloc, b"k1", b"cp", &[1; 32])?;
    let token = seal(alloc, &key, b"{\"exp\":100}")?;
    let parts = split(token.text())?;
    let header = read_header(alloc, &parts)?;
    let mut keys = Vec::new(alloc);
    keys.push(key)?;
    assert_eq!(rt; verifier(&Ring::new(keys)?, &header, &parts), Some(0));
    Ok(())
}
