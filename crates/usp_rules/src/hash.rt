//! The container of one content.
ghost use Rattle.std.specs.Prelude.{◌≡◌, ◌++◌, codes, IfOk};
ghost use Rattle.usp_rules.specs.Segment.{segment_of};

use crate::{NoMemory, segment_of};
use std::alloc::Global;
use usp_json::Text;
use usp_uri::Uri;

/// The text of the container that meets this one content: `hash:` and the segment of its URI (RFC 9246
/// section 2.1.15.1).
#[tactic(auto, using(crate::proofs::Segments::segment_text))]
pub fn hash_container(alloc: Global, uri: &Uri) -> Result<Text, NoMemory>
    ensures { IfOk result (λ text. text ≡ codes "hash:" ++ segment_of uri.now) }
{
    let segment = segment_of(uri.text());
    let mut text = String::from_str(alloc, "hash:")?;
    text.push_str(unsafe { str::from_utf8_unchecked(&segment) })?;
    Ok(Text::of(alloc, text.as_str())?)
}
