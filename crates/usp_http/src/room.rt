//! Room for the fields of a head.
ghost use Rattle.std.specs.Prelude.{◌≡◌, ◌≤◌, IfOk, OnOk, vec_len};
ghost use Rattle.usp_http.specs.declared.limits.TheConstants.{MAX_FIELDS};

use crate::NoMemory;
use crate::limits::MAX_FIELDS;
use httparse::spans::{EMPTY_HEADER_SPAN, HeaderSpan};
use std::alloc::Global;

/// As many fields as have room in a head of any number of fields: the least has three bytes.
pub(crate) const FITTING_FIELDS: usize = 5_461;

/// Room for the fields of a head, which is taken once for all heads of a connection.
#[derive(Drop)]
pub(crate) struct Room {
    /// For a head with as many fields as it may have.
    pub few: Vec<HeaderSpan>,
    /// For a head with as many as fit into its bytes. It is empty until such a head comes.
    pub many: Vec<HeaderSpan>,
    ghost enough: { vec_len few ≡ MAX_FIELDS },
}

/// Room for so many fields.
fn room_for(alloc: Global, count: usize) -> Result<Vec<HeaderSpan>, NoMemory>
    ensures { IfOk result (λ spans. vec_len spans ≡ count) }
{
    Ok(vec![in alloc; EMPTY_HEADER_SPAN; count]?)
}

impl Room {
    pub fn new(alloc: Global) -> Result<Room, NoMemory> {
        Ok(Room {
            few: room_for(alloc, MAX_FIELDS)?,
            many: Vec::new(alloc),
        })
    }
}

/// Makes the room large enough for the fields of any head, where it is not.
pub(crate) fn widen(alloc: Global, many: &mut Vec<HeaderSpan>) -> Result<(), NoMemory>
    ensures { OnOk result (FITTING_FIELDS ≤ vec_len many.new) }
{
    if many.len() < FITTING_FIELDS {
        *many = room_for(alloc, FITTING_FIELDS)?;
    }
    Ok(())
}
