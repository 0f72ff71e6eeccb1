//! What many threads may read at once.
ghost use Rattle.std.specs.Thread.{IsSync};
ghost use Rattle.usp_conf.specs.contracts.conf.Conf as conf;

use usp_conf::Conf;
use usp_issue::Site;

// The values of a type may be read by many threads at once.
fn is_shared<T: Sync>()
    ensures { IsSync T.row }
{}

/// A configuration may be read by many threads at once: the fact for whoever hands one to threads.
pub(crate) fn share_conf()
    ensures { IsSync conf.the_row }
{
    is_shared::<Site>();
    is_shared::<Conf>();
}
