//! The URIs of a generated script, and what stands there.
ghost use Rattle.std.specs.Prelude.{◌≡◌, ◌≤◌, IfOk, Ok};
ghost use Rattle.usp_uri.specs.Faults.{normal_of};
ghost use Rattle.usp_script.specs.Generator.{list_uri, object_of, objects, segment_uri, sent_uri, target_uri};

use crate::{LabObject, NoMemory};
use std::alloc::Global;
use usp_base::Octets;
use usp_uri::{Uri, UriFault, read_uri};

// The URI of a text that is in its normal form.
#[tactic(auto, using(crate::proofs::Uris::not_refused))]
fn uri_of(alloc: Global, text: &[u8]) -> Result<Uri, NoMemory>
    requires { normal_of text.now ≡ Ok text.now }
    ensures { IfOk result (λ uri. uri ≡ text.now) }
{
    match read_uri(alloc, text) {
        Ok(uri) => Ok(uri),
        Err(UriFault::NoMemory) => Err(NoMemory),
        Err(_) => unreachable!(),
    }
}

#[tactic(auto, unfolding(usp_uri::specs::Faults::normal_of))]
pub fn list_uri(alloc: Global) -> Result<Uri, NoMemory>
    ensures { IfOk result (λ uri. uri ≡ list_uri) }
{
    uri_of(alloc, b"https://a.example/v/list.m3u8")
}

fn segment_text(number: u32) -> &'static [u8]
    requires { (1 ≤ number) × (number ≤ 5) }
    ensures { result.now ≡ segment_uri number }
{
    match number {
        1 => b"https://a.example/v/s1.ts",
        2 => b"https://a.example/v/s2.ts",
        3 => b"https://a.example/v/s3.ts",
        4 => b"https://a.example/v/s4.ts",
        _ => b"https://a.example/v/s5.ts",
    }
}

/// The URI of the segment of that number, from 1 to 5.
pub fn segment_uri(alloc: Global, number: u32) -> Result<Uri, NoMemory>
    requires { (1 ≤ number) × (number ≤ 5) }
    ensures { IfOk result (λ uri. uri ≡ segment_uri number) }
{
    uri_of(alloc, segment_text(number))
}

/// The URI that the first edge sends on.
#[tactic(auto, unfolding(usp_uri::specs::Faults::normal_of))]
pub fn sent_uri(alloc: Global) -> Result<Uri, NoMemory>
    ensures { IfOk result (λ uri. uri ≡ sent_uri) }
{
    uri_of(alloc, b"https://a.example/b/s6.ts")
}

/// The URI to which it is sent.
#[tactic(auto, unfolding(usp_uri::specs::Faults::normal_of))]
pub fn target_uri(alloc: Global) -> Result<Uri, NoMemory>
    ensures { IfOk result (λ uri. uri ≡ target_uri) }
{
    uri_of(alloc, b"https://b.example/b/s6.ts")
}

fn object_of(alloc: Global, edge: u32, uri: Uri) -> Result<LabObject, NoMemory>
    ensures { IfOk result (λ object. object ≡ object_of edge uri) }
{
    let text = Octets::of(Vec::from_slice(alloc, b"x")?);
    Ok(LabObject { edge, uri, text })
}

/// An object for each URI that is asked for.
pub fn objects(alloc: Global) -> Result<Vec<LabObject>, NoMemory>
    ensures { IfOk result (λ made. made.items ≡ objects) }
{
    let mut objects = Vec::new(alloc);
    objects.push(object_of(alloc, 0, list_uri(alloc)?)?)?;
    objects.push(object_of(alloc, 0, segment_uri(alloc, 1)?)?)?;
    objects.push(object_of(alloc, 0, segment_uri(alloc, 2)?)?)?;
    objects.push(object_of(alloc, 0, segment_uri(alloc, 3)?)?)?;
    objects.push(object_of(alloc, 0, segment_uri(alloc, 4)?)?)?;
    objects.push(object_of(alloc, 0, segment_uri(alloc, 5)?)?)?;
    objects.push(object_of(alloc, 0, sent_uri(alloc)?)?)?;
    objects.push(object_of(alloc, 1, target_uri(alloc)?)?)?;
    Ok(objects)
}
