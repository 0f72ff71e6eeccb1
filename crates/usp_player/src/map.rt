//! The addresses of authorities.
ghost use Rattle.std.specs.Prelude.{◌≡◌};
ghost use Rattle.std.specs.List.{list_all};
ghost use Rattle.std.specs.Option.{option_copied, option_map};
ghost use Rattle.usp_player.specs.Maps.{ReadsMap, address_of, is_visible, is_word, map_of, place_of, place_with};

use crate::MapFault;
use std::alloc::Global;
use std::marker::Model;
use usp_base::{Octets, cut_at, first_line};

/// An authority and its address.
#[derive(Drop, Debug)]
pub struct Place {
    /// A host, with `:` and a port where that is not the scheme's own.
    pub authority: Octets,
    /// Where a link connects to.
    pub address: Octets,
}

/// The addresses of authorities, which contracts see as the list of their places.
#[derive(Drop)]
pub struct AddressMap {
    places: Vec<Place>,
}

impl Model for AddressMap {
    ghost use Rattle.std.specs.Prelude.{List};
    ghost use Rattle.usp_player.specs.declared.map.Place.{Place};

    ghost Value = { List Place };

    ghost view = { λ m. m.places.items };
}

impl AddressMap {
    /// The address of the authority, by its first place. None exactly where it has none.
    pub fn address_of(&self, authority: &[u8]) -> Option<&[u8]>
        ensures { option_copied result ≡ address_of self.now authority.now }
    {
        for place in &self.places {
            if place.authority.bytes() == authority {
                return Some(place.address.bytes());
            }
        }
        None
    }
}

fn is_visible(b: u8) -> bool
    ensures { result ≡ is_visible b }
{
    b >= b'!' && b <= b'~'
}

fn all_visible(text: &[u8]) -> bool
    ensures { result ≡ list_all is_visible text.now }
{
    text.iter().all(|b| is_visible(*b))
}

fn is_word(text: &[u8]) -> bool
    ensures { result ≡ is_word text.now }
{
    match text {
        [] => false,
        [_, ..] => all_visible(text),
    }
}

// The authority and the address of a line.
fn place_of(line: &[u8]) -> Option<(&[u8], &[u8])>
    ensures { option_map (λ place. place_with place.0.now place.1.now) result ≡ place_of line.now }
{
    let (authority, address) = cut_at(line, b' ')?;
    if is_word(authority) && is_word(address) {
        Some((authority, address))
    } else {
        None
    }
}

/// Reads a map: each line is an authority and an address, parted by one space, and each of them is one or more
/// visible characters of ASCII. Lines end in LF or CR LF, and the last may end without.
#[tactic(auto, unfolding(crate::specs::Maps::map_of))]
pub fn read_map(alloc: Global, text: &[u8]) -> Result<AddressMap, MapFault>
    ensures { ReadsMap result (map_of text.now) }
{
    let mut places = Vec::new(alloc);
    let mut rest = text;
    let mut number = 1usize;
    while !rest.is_empty() {
        let (line, after) = first_line(rest);
        let Some((authority, address)) = place_of(line) else {
            return Err(MapFault::Line { line: number });
        };
        places.push(Place {
            authority: Octets::of(Vec::from_slice(alloc, authority)?),
            address: Octets::of(Vec::from_slice(alloc, address)?),
        })?;
        rest = after;
        number += 1;
    }
    Ok(AddressMap { places })
}
