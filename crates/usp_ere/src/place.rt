//! Places of a text.
ghost use Rattle.std.specs.Prelude.{◌≡◌, ◌+◌, ◌-◌, ◌<◌, drop, min};

/// The text without so many bytes at its front.
#[tactic(auto, using(std::proofs::lemmas::List::drop_min))]
pub fn skip(text: &[u8], bytes: usize) -> &[u8]
    ensures { result.now ≡ drop bytes text.now }
{
    &text[bytes.min(text.len())..]
}

/// The place behind an element or token of so many bytes, in a text that ends at a place.
pub fn place_behind(at: usize, bytes: usize, end: usize) -> usize
    requires { at < end }
    ensures { result ≡ min (at + 1 + (bytes - 1)) end }
{
    at.saturating_add(bytes.max(1)).min(end)
}
