//! Cutting a text at the first byte of a class.

ghost use Rattle.std.specs.Prelude.{◌≡◌, ◌+◌, length, position};
ghost use Rattle.usp_uri.specs.Letters.{is_colon, is_hash, is_slash, ends_authority, ends_path};
ghost use Rattle.usp_uri.specs.Delimited.{until, from_first};

/// The offset of the first ':'.
fn find_colon(text: &[u8]) -> Option<usize>
    ensures { result ≡ position is_colon text.now }
{
    text.iter().position(|c| *c == b':')
}

/// The offset of the first '#'.
fn find_hash(text: &[u8]) -> Option<usize>
    ensures { result ≡ position is_hash text.now }
{
    text.iter().position(|c| *c == b'#')
}

/// The offset of the first byte that ends an authority.
fn find_authority_end(text: &[u8]) -> Option<usize>
    ensures { result ≡ position ends_authority text.now }
{
    text.iter().position(|c| matches!(*c, b'/' | b'?' | b'#'))
}

/// The offset of the first byte that ends a path.
fn find_path_end(text: &[u8]) -> Option<usize>
    ensures { result ≡ position ends_path text.now }
{
    text.iter().position(|c| matches!(*c, b'?' | b'#'))
}

/// What stands before the first ':', and the text from there on.
#[tactic(auto, using(crate::proofs::CutLemmas::cut_rules))]
pub fn cut_at_colon(text: &[u8]) -> (&[u8], &[u8])
    ensures front { result.0.now ≡ until is_colon text.now }
    ensures back { result.1.now ≡ from_first is_colon text.now }
    ensures whole { length result.0.now + length result.1.now ≡ length text.now }
{
    let end = find_colon(text).unwrap_or(text.len());
    text.split_at(end)
}

/// What stands before the first '#', and the text from there on.
#[tactic(auto, using(crate::proofs::CutLemmas::cut_rules))]
pub fn cut_at_hash(text: &[u8]) -> (&[u8], &[u8])
    ensures front { result.0.now ≡ until is_hash text.now }
    ensures back { result.1.now ≡ from_first is_hash text.now }
    ensures whole { length result.0.now + length result.1.now ≡ length text.now }
{
    let end = find_hash(text).unwrap_or(text.len());
    text.split_at(end)
}

/// What stands before the end of an authority, and the text from there on.
#[tactic(auto, using(crate::proofs::CutLemmas::cut_rules))]
pub fn cut_authority(text: &[u8]) -> (&[u8], &[u8])
    ensures front { result.0.now ≡ until ends_authority text.now }
    ensures back { result.1.now ≡ from_first ends_authority text.now }
    ensures whole { length result.0.now + length result.1.now ≡ length text.now }
{
    let end = find_authority_end(text).unwrap_or(text.len());
    text.split_at(end)
}

/// What stands before the end of a path, and the text from there on.
#[tactic(auto, using(crate::proofs::CutLemmas::cut_rules))]
pub fn cut_path(text: &[u8]) -> (&[u8], &[u8])
    ensures front { result.0.now ≡ until ends_path text.now }
    ensures back { result.1.now ≡ from_first ends_path text.now }
    ensures whole { length result.0.now + length result.1.now ≡ length text.now }
{
    let end = find_path_end(text).unwrap_or(text.len());
    text.split_at(end)
}

/// The offset of the first '/'.
fn find_slash(text: &[u8]) -> Option<usize>
    ensures { result ≡ position is_slash text.now }
{
    text.iter().position(|c| *c == b'/')
}

/// What stands before the first '/', and the text from there on.
#[tactic(auto, using(crate::proofs::CutLemmas::cut_rules))]
pub fn cut_at_slash(text: &[u8]) -> (&[u8], &[u8])
    ensures front { result.0.now ≡ until is_slash text.now }
    ensures back { result.1.now ≡ from_first is_slash text.now }
    ensures whole { length result.0.now + length result.1.now ≡ length text.now }
{
    let end = find_slash(text).unwrap_or(text.len());
    text.split_at(end)
}
