//! Laws of the compact form, of keys and of sealing.
ghost use Rattle.std.specs.Prelude.{◌≡◌, ◌≢◌, ◌↔◌, ◌≤◌, ◌<◌, List, Option, ℕ, length, true, Some, None, position, slice_get};
ghost use Rattle.std.specs.List.{list_all};
ghost use Rattle.base64.specs.GeneralPurpose.{IsBytes};
ghost use Rattle.usp_jws.specs.Base64url.{b64u, b64u_bytes};
ghost use Rattle.usp_jws.specs.Compact.{compact, IsToken, Refuses};
ghost use Rattle.usp_jws.specs.Headers.{IsHeader, RefusesHeader};
ghost use Rattle.usp_jws.specs.Keys.{KeyValue, agrees, first_repeat, key_named, names, place_named};
ghost use Rattle.usp_jws.specs.Hmac.{hmac};
ghost use Rattle.usp_jws.specs.Letters.{is_kid, is_token_letter};
ghost use Rattle.usp_jws.specs.Parts.{PartsValue, signed_of, text_of};
ghost use Rattle.usp_jws.specs.Sealed.{sealed, sealed_len};
ghost use Rattle.usp_jws.specs.declared.header.HeaderFault.{HeaderFault};
ghost use Rattle.usp_jws.specs.declared.header.HeaderFault.TheVariants.{NoMemory};
ghost use Rattle.usp_jws.specs.declared.limits.TheConstants.{DIGEST_LETTERS, MAX_IDENTITY, MAX_KEYS, MAX_KID, MAX_PAYLOAD, MAX_SECRET, MAX_TOKEN, MIN_SECRET};
ghost use Rattle.usp_jws.specs.declared.parts.TokenFault.{TokenFault};

/// A text is the compact form of at most one triple.
pub fn exactly_one()
    ensures { (h p s x y z : List ℕ) → IsBytes h → IsBytes p → IsBytes s → IsBytes x → IsBytes y → IsBytes z
        → compact h p s ≡ compact x y z → (h ≡ x) × (p ≡ y) × (s ≡ z) }
{}

/// What `split` refuses is no token, so it accepts each token; and a text is refused for one reason.
pub fn refused_are_no_tokens()
    ensures none { (fault : TokenFault) (text : List ℕ) → Refuses fault text → IsToken text → ⊥ }
    ensures one { (fault other : TokenFault) (text : List ℕ)
        → Refuses fault text → Refuses other text → fault ≡ other }
{}

/// A token is not empty, and has the letters of base64url and dots alone.
pub fn tokens_have_letters()
    ensures some { (text : List ℕ) → IsToken text → 0 < length text }
    ensures letters { (text : List ℕ) → IsToken text → list_all is_token_letter text ≡ true }
{}

/// What is sealed has three parts. However it is cut into parts at its dots, the first is a header that
/// names the key, and the second the payload. Over bytes it is a token where it is short enough.
pub fn sealed_is_read()
    ensures parts { (key : KeyValue) (payload : List ℕ)
        → (parts : PartsValue) × (text_of parts ≡ sealed key payload) }
    ensures header { (key : KeyValue) (payload : List ℕ) (parts : PartsValue) → is_kid key.kid ≡ true
        → text_of parts ≡ sealed key payload → IsHeader parts.header (Some key.kid) }
    ensures payload { (key : KeyValue) (payload : List ℕ) (parts : PartsValue)
        → text_of parts ≡ sealed key payload → parts.payload ≡ b64u payload }
    ensures length { (key : KeyValue) (payload : List ℕ)
        → length (sealed key payload) ≡ sealed_len (length key.kid) (length payload) }
    ensures token { (key : KeyValue) (payload : List ℕ) → is_kid key.kid ≡ true → IsBytes payload
        → length (sealed key payload) ≤ MAX_TOKEN → IsToken (sealed key payload) }
{}

/// A key that sealed a token agrees with its parts, whether the header's name is given or not. Of keys
/// whose names are apart, the first that agrees under that name is the one that sealed it.
pub fn sealed_verifies()
    ensures agrees { (key : KeyValue) (payload : List ℕ) (parts : PartsValue) → text_of parts ≡ sealed key payload
        → (agrees None (signed_of parts) parts.signature key ≡ true)
        × (agrees (Some key.kid) (signed_of parts) parts.signature key ≡ true) }
    ensures place { (keys : List KeyValue) (place : ℕ) (key : KeyValue) (payload : List ℕ) (parts : PartsValue)
        → first_repeat keys ≡ None → slice_get keys place ≡ Some key → text_of parts ≡ sealed key payload
        → position (agrees (Some key.kid) (signed_of parts) parts.signature) keys ≡ Some place }
{}

/// What `read_header` refuses, but for want of memory, is no header, so it accepts each; and a header
/// names one key at most.
pub fn refused_are_no_headers()
    ensures none { (fault : HeaderFault) (text : List ℕ) (kid : Option (List ℕ))
        → RefusesHeader fault text → fault ≢ NoMemory → IsHeader text kid → ⊥ }
    ensures one { (text : List ℕ) (kid other : Option (List ℕ))
        → IsHeader text kid → IsHeader text other → kid ≡ other }
{}

/// What a text in base64url is read as are the bytes of which it is the text, and a text is that of one
/// byte string at most.
pub fn base64url_is_read_back()
    ensures read { (text bytes : List ℕ) → IsBytes text → IsBytes bytes
        → b64u_bytes text ≡ Some bytes ↔ text ≡ b64u bytes }
    ensures back { (bytes : List ℕ) → IsBytes bytes → b64u_bytes (b64u bytes) ≡ Some bytes }
    ensures one { (bytes other : List ℕ) → IsBytes bytes → IsBytes other → b64u bytes ≡ b64u other → bytes ≡ other }
{}

/// A key agrees exactly where it is named and the decoded signature is its MAC of the signed text (RFC
/// 7515 section 5.2), though texts are compared.
pub fn agrees_by_the_mac()
    ensures decoded { (kid : Option (List ℕ)) (signed bytes : List ℕ) (key : KeyValue) → IsBytes bytes
        → agrees kid signed (b64u bytes) key ≡ true ↔ (names kid key ≡ true) × (bytes ≡ hmac key.secret signed) }
    ensures text { (kid : Option (List ℕ)) (signed signature : List ℕ) (key : KeyValue) → IsBytes signature
        → agrees kid signed signature key ≡ true
        ↔ (names kid key ≡ true) × (b64u_bytes signature ≡ Some (hmac key.secret signed)) }
{}

/// The key of a name is the one at the place of that name.
pub fn named_at_its_place()
    ensures { (keys : List KeyValue) (kid : List ℕ) (place : ℕ)
        → place_named keys kid ≡ Some place → slice_get keys place ≡ key_named keys kid }
{}

/// The limits, as numbers.
pub fn limits_are_told()
    ensures token { MAX_TOKEN ≡ 8192 }
    ensures payload { MAX_PAYLOAD ≡ 6000 }
    ensures secret { (MIN_SECRET ≡ 32) × (MAX_SECRET ≡ 64) }
    ensures names { (MAX_KID ≡ 64) × (MAX_IDENTITY ≡ 128) }
    ensures keys { MAX_KEYS ≡ 64 }
    ensures digest { DIGEST_LETTERS ≡ 43 }
{}
