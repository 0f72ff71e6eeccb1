//! What many threads may read at once.
ghost use Rattle.std.specs.Thread.{IsSync};
ghost use Rattle.usp_script.specs.contracts.ask.LabAsk as ask;
ghost use Rattle.usp_script.specs.contracts.script.Script as script;

use usp_base::Rows;
use usp_conf::Conf;
use usp_issue::Site;
use usp_jws::Token;
use usp_script::{LabAsk, LabObject, Round, Script};

// The values of a type may be read by many threads at once.
fn is_shared<T: Sync>()
    ensures { IsSync T.row }
{}

/// A script and asks may be read by many threads at once: the facts for whoever hands them to threads.
pub(super) fn share_all()
    ensures script { IsSync script.the_row }
    ensures asks { IsSync ask.the_row }
{
    is_shared::<Site>();
    is_shared::<Conf>();
    is_shared::<Rows<Conf>>();
    is_shared::<LabAsk>();
    is_shared::<Rows<LabAsk>>();
    is_shared::<LabObject>();
    is_shared::<Rows<LabObject>>();
    is_shared::<Token>();
    is_shared::<Rows<Token>>();
    is_shared::<Round>();
    is_shared::<Rows<Round>>();
    is_shared::<Script>();
}
