//! Objects as replies.
ghost use Rattle.usp_edge.specs.Requests.{ServesReply, ShowsReply};

use crate::answer::Replied;
use crate::memory::NoMemory;
use crate::prepared::{Prepared, Renewal};
use crate::replies::{absence, redirection, showing};
use crate::request::Request;
use usp_base::{LoadFault, Objects};
use usp_uri::Uri;

// Reads the object, and replies with what is read.
fn show<O: Objects>(
    request: &Request<'_>,
    content: &Uri,
    renewal: Option<Renewal>,
    objects: &mut O,
) -> Result<Replied, NoMemory>
    ensures { ShowsReply request.now.head.now request.now.last content.now renewal
        (O.objects objects.old) (O.objects objects.new) (O.object_count objects.old)
        (O.object_count objects.new) result }
{
    match objects.read(request.alloc, content.text()) {
        Ok(Some(bytes)) => showing(request, renewal, bytes),
        Ok(None) => absence(request, 404, b"no object"),
        Err(LoadFault::Failed) => absence(request, 502, b"no answer"),
        Err(LoadFault::NoMemory) => Err(NoMemory),
    }
}

/// Serves a request that all rules admit.
pub(crate) fn serve<O: Objects>(
    request: &Request<'_>,
    content: &Uri,
    prepared: Prepared,
    objects: &mut O,
) -> Result<Replied, NoMemory>
    ensures { ServesReply request.now.head.now request.now.last content.now prepared
        (O.objects objects.old) (O.objects objects.new) (O.object_count objects.old)
        (O.object_count objects.new) result }
{
    match prepared {
        Prepared::Redirect(place, signed) => redirection(request, place, signed),
        Prepared::Show(renewal) => show(request, content, renewal, objects),
    }
}
