//! Whether a use met its grant, evaluated plainly along a chain of places.
use super::samples::{Content, Sheet};

/// A use of a token.
#[derive(Clone, Copy, Debug, PartialEq, Eq)]
pub struct Use {
    pub edge: u8,
    pub content: Content,
    pub moment: u32,
}

/// How a token came to be: granted, renewed, or signed again for an edge.
#[derive(Clone, Copy, Debug, PartialEq, Eq)]
pub enum How {
    Granted,
    Renewed(Use),
    SentTo(u8, Use),
}

/// What a place of a ledger holds.
#[derive(Clone, Copy, Debug, PartialEq, Eq)]
pub struct Entry {
    pub how: How,
    pub sheet: Sheet,
}

/// What the links up to a use changed: for which edge the last redirection was, and when the last renewal.
#[derive(Clone, Copy, Debug, PartialEq, Eq)]
struct Behind {
    sent: Option<u8>,
    renewed: Option<u32>,
}

fn is_for(grant: &Sheet, edge: u8, sent: Option<u8>) -> bool {
    match (grant.audience, sent) {
        (None, _) => true,
        (Some(audience), None) => audience == edge,
        (Some(_), Some(audience)) => audience == edge,
    }
}

fn is_begun(grant: &Sheet, moment: u32) -> bool {
    match grant.begins {
        None => true,
        Some(begins) => begins <= moment,
    }
}

fn is_in_time(grant: &Sheet, moment: u32, renewed: Option<u32>) -> bool {
    match (renewed, grant.ends, grant.period) {
        (None, None, _) => true,
        (None, Some(ends), _) => moment < ends,
        (Some(_), _, None) => false,
        (Some(last), _, Some(period)) => moment < last.saturating_add(period),
    }
}

fn is_use_met(grant: &Sheet, asked: Use, behind: Behind) -> bool {
    is_for(grant, asked.edge, behind.sent)
        && is_begun(grant, asked.moment)
        && is_in_time(grant, asked.moment, behind.renewed)
}

/// Whether each use along the places, and the asked one behind them, met the audience and the window of the grant.
/// None where the places are none of the entries', or do not begin with a grant.
fn are_uses_met(entries: &[Entry], places: &[u32], asked: Use) -> Option<bool> {
    let (first, links) = places.split_first()?;
    let grant = entries.get(*first as usize)?;
    if grant.how != How::Granted {
        return None;
    }
    let mut behind = Behind {
        sent: None,
        renewed: None,
    };
    let mut met = true;
    for place in links {
        match entries.get(*place as usize)?.how {
            How::Granted => return None,
            How::Renewed(made) => {
                met = met && is_use_met(&grant.sheet, made, behind);
                behind.renewed = Some(made.moment);
            }
            How::SentTo(edge, made) => {
                met = met && is_use_met(&grant.sheet, made, behind);
                behind.sent = Some(edge);
            }
        }
    }
    Some(met && is_use_met(&grant.sheet, asked, behind))
}

/// The content for which the grant was used.
fn origin_of(entries: &[Entry], places: &[u32], asked: Content) -> Option<Content> {
    let (first, links) = places.split_first()?;
    let mut held = entries.get(*first as usize)?.sheet.held;
    for place in links {
        let entry = entries.get(*place as usize)?;
        if let How::SentTo(_, made) = entry.how {
            if entry.sheet.held != held {
                return Some(made.content);
            }
        }
        held = entry.sheet.held;
    }
    Some(asked)
}

/// Whether the use of the token at the last of these places met the grant at the first of them.
pub fn is_grant_met(entries: &[Entry], places: &[u32], asked: Use) -> Option<bool> {
    let origin = origin_of(entries, places, asked.content)?;
    let grant = entries.get(*places.first()? as usize)?;
    let uses = are_uses_met(entries, places, asked)?;
    Some(uses && grant.sheet.held.has(origin))
}
