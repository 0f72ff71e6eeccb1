//! What an ask brings to the ledger.
ghost use Rattle.std.specs.Prelude.{◌≡◌, ◌<◌, ◌≤◌, ℕ, List, Some, IfOk, IfSome, length, take};
ghost use Rattle.usp_package.specs.Package.{package_of};
ghost use Rattle.usp_rules.specs.Asks.{content_in};
ghost use Rattle.usp_script.specs.Script.{attribute_of};
ghost use Rattle.usp_script.specs.declared.limits.TheConstants.{MAX_EDGES};
ghost use Rattle.usp_trace.specs.Chains.{first_place};
ghost use Rattle.usp_trace.specs.Issues.{parent_of};
ghost use Rattle.usp_lab.specs.Books.{issue_at, origin_in};
ghost use Rattle.usp_lab.specs.Entries.{issue_by, ledger_of};

use super::entry_list::EntryList;
use super::tokens::copy_of;
use crate::NoMemory;
use std::alloc::Global;
use usp_conf::Conf;
use usp_edge::Note;
use usp_jws::Token;
use usp_package::{Found, concatenate, find};
use usp_rules::normal_form;
use usp_trace::Issue;
use usp_uri::Uri;

/// The note of an ask, with the edge that it asked, and the place of that.
#[derive(Clone, Copy)]
pub(crate) struct Noted<'a> {
    pub(crate) place: u32,
    pub(crate) edge: &'a Conf,
    pub(crate) note: &'a Note,
}

// The content of a request: its URI without the package.
fn content_of(alloc: Global, edge: &Conf, uri: &[u8]) -> Result<Option<Uri>, NoMemory>
    ensures { IfOk result (λ content.
        content ≡ content_in uri.now (package_of (attribute_of edge.now) uri.now)) }
{
    match find(&edge.site().profile().attribute, uri) {
        Found::None => Ok(normal_form(alloc, uri)?),
        Found::Bad { .. } => Ok(None),
        Found::At { before, after, .. } => {
            let text = concatenate(alloc, before, after)?;
            Ok(normal_form(alloc, &text)?)
        }
    }
}

// A token that was renewed, or signed again for the route by which the request was sent on.
fn issue_by(noted: &Noted<'_>, parent: u32, uri: Uri, token: Token) -> Issue
    requires { noted.now.place < MAX_EDGES }
    ensures { result
        ≡ issue_by parent noted.now.place uri noted.now.note.now.moment noted.now.note.now.route token }
{
    let edge = noted.place as u16;
    let moment = noted.note.moment;
    match noted.note.route {
        None => Issue::Renewed {
            parent,
            edge,
            uri,
            moment,
            token,
        },
        Some(route) => Issue::Resigned {
            parent,
            edge,
            uri,
            moment,
            route,
            token,
        },
    }
}

// The first place of a token among so many of the ledger.
fn place_among(entries: &EntryList, known: u32, token: &[u8]) -> Option<u32>
    ensures value { result ≡ first_place token.now (take known (ledger_of entries.now)) }
    ensures first { IfSome result (λ place. first_place token.now (ledger_of entries.now) ≡ Some place) }
{
    let Some(place) = entries.first_place(token) else {
        return None;
    };
    if place < known { Some(place) } else { None }
}

/// The first place, among so many of the ledger, of the token that was presented.
pub(crate) fn origin_of(entries: &EntryList, known: u32, note: &Note) -> Option<u32>
    ensures value { result ≡ origin_in (take known (ledger_of entries.now)) note.now }
    ensures first { IfSome result
        (λ place. (token : List ℕ) × (first_place token (ledger_of entries.now) ≡ Some place)) }
{
    match &note.token {
        Some(token) => place_among(entries, known, token.bytes()),
        None => None,
    }
}

/// What was issued, where the token that was presented has that place.
pub(crate) fn issue_at(
    alloc: Global,
    origin: Option<u32>,
    noted: &Noted<'_>,
) -> Result<Option<Issue>, NoMemory>
    requires { noted.now.place < MAX_EDGES }
    ensures { IfOk result (λ issue.
        issue ≡ issue_at origin noted.now.place noted.now.edge.now noted.now.note.now) }
{
    let Some(parent) = origin else {
        return Ok(None);
    };
    let Some(token) = &noted.note.issued else {
        return Ok(None);
    };
    let Some(content) = content_of(alloc, noted.edge, noted.note.uri.bytes())? else {
        return Ok(None);
    };
    let token = copy_of(alloc, token)?;
    Ok(Some(issue_by(noted, parent, content, token)))
}
