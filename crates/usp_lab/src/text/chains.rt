//! The chains of tokens in a text.
ghost use Rattle.std.specs.Prelude.{◌≡◌, ◌<◌, ◌++◌, ◌∷◌, All, length, OnOk};
ghost use Rattle.std.specs.Fmt.{decimal};
ghost use Rattle.std.specs.Option.{ForSome};
ghost use Rattle.usp_lab.specs.LabText.{bound_text};
ghost use Rattle.usp_lab.specs.Links.{link_at, links_text, span_text};
ghost use Rattle.usp_lab.specs.Telling.{Grows, TellsChain, TellsPlace};
ghost use Rattle.usp_script.specs.Reading.{label_text};

use super::links::Link;
use super::window::Window;
use crate::NoMemory;
use crate::numbers::push_number;
use std::alloc::Global;
use usp_script::Label;
use usp_trace::Ledger;

fn push_bound(alloc: Global, text: &mut Vec<u8>, bound: Option<u64>) -> Result<(), NoMemory>
    ensures { OnOk result (text.new.items ≡ text.old.items ++ bound_text bound) }
{
    match bound {
        None => text.push(b'*')?,
        Some(moment) => push_number(alloc, text, moment)?,
    }
    Ok(())
}

fn push_window(alloc: Global, text: &mut Vec<u8>, window: Window) -> Result<(), NoMemory>
    ensures { OnOk result (text.new.items ≡ text.old.items ++ span_text window) }
{
    text.push(b'[')?;
    push_bound(alloc, text, window.from)?;
    text.push(b'-')?;
    push_bound(alloc, text, window.until)?;
    text.push(b']')?;
    Ok(())
}

// A letter, and a number behind it.
fn push_numbered(alloc: Global, text: &mut Vec<u8>, letter: u8, number: u32) -> Result<(), NoMemory>
    ensures { OnOk result (text.new.items ≡ text.old.items ++ (letter ∷ decimal number)) }
{
    text.push(letter)?;
    push_number(alloc, text, u64::from(number))?;
    Ok(())
}

fn push_label(alloc: Global, text: &mut Vec<u8>, label: Label) -> Result<(), NoMemory>
    ensures { OnOk result (text.new.items ≡ text.old.items ++ label_text label) }
{
    match label {
        Label::Granted(number) => push_numbered(alloc, text, b'g', number),
        Label::Outside(number) => push_numbered(alloc, text, b'x', number),
        Label::Issued(number) => push_numbered(alloc, text, b'i', number),
    }
}

// The link at a place.
fn push_link(alloc: Global, text: &mut Vec<u8>, links: &[Link], place: u32) -> Result<(), NoMemory>
    requires { place < length links.now }
    ensures { OnOk result (text.new.items ≡ text.old.items ++ link_at links.now place) }
{
    let link = links[place as usize];
    push_label(alloc, text, link.label)?;
    push_window(alloc, text, link.window)?;
    Ok(())
}

// The links at those places, with `>` between them.
fn push_links(
    alloc: Global,
    text: &mut Vec<u8>,
    links: &[Link],
    places: &[u32],
) -> Result<(), NoMemory>
    requires { All (λ place. place < length links.now) places.now }
    ensures { OnOk result (text.new.items ≡ text.old.items ++ links_text links.now places.now) }
{
    let Some((first, rest)) = places.split_first() else {
        return Ok(());
    };
    push_link(alloc, text, links, *first)?;
    'places: for place in rest {
        text.push(b'>')?;
        push_link(alloc, text, links, *place)?;
    }
    Ok(())
}

/// A ledger, and what is shown of each of its tokens.
#[derive(Clone, Copy)]
pub struct Trail<'a> {
    pub ledger: &'a Ledger,
    pub links: &'a [Link],
}

// The chain of a place.
fn push_chain(
    alloc: Global,
    text: &mut Vec<u8>,
    trail: &Trail<'_>,
    place: u32,
) -> Result<(), NoMemory>
    requires links { length trail.now.links.now ≡ length trail.now.ledger.now }
    requires place { place < length trail.now.ledger.now }
    ensures { OnOk result (Grows text.old.items text.new.items
        (TellsChain trail.now.ledger.now trail.now.links.now place)) }
{
    let places = trail.ledger.chain(alloc, place)?;
    text.extend_from_slice(b" chain ")?;
    push_links(alloc, text, trail.links, &places)?;
    Ok(())
}

/// Puts the chain of a token's place behind a text, or that the token has none.
pub fn push_origin(
    alloc: Global,
    text: &mut Vec<u8>,
    trail: &Trail<'_>,
    origin: Option<u32>,
) -> Result<(), NoMemory>
    requires links { length trail.now.links.now ≡ length trail.now.ledger.now }
    requires place { ForSome origin (λ place. place < length trail.now.ledger.now) }
    ensures { OnOk result (Grows text.old.items text.new.items
        (TellsPlace trail.now.ledger.now trail.now.links.now origin)) }
{
    match origin {
        Some(place) => push_chain(alloc, text, trail, place)?,
        None => text.extend_from_slice(b" chain untraced")?,
    }
    Ok(())
}
