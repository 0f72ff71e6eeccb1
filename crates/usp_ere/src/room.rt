//! The memory of a match.
ghost use Rattle.std.specs.Prelude.{◌≡◌, ℕ, IfOk};

use crate::node_set::NodeSet;
use std::alloc::{AllocError, Global};
use std::marker::Model;

/// The memory that a match needs, for expressions up to a size.
#[derive(Drop)]
pub struct Scratch {
    pub(crate) now: NodeSet,
    pub(crate) next: NodeSet,
}

impl Model for Scratch {
    ghost Value = { ℕ };

    ghost view = { λ s. s.now.most };

    ghost invariant = { λ s. s.next.most ≡ s.now.most };
}

impl Scratch {
    pub(crate) fn for_size(alloc: Global, size: usize) -> Result<Scratch, AllocError>
        ensures { IfOk result (λ scratch. scratch ≡ size) }
    {
        Ok(Scratch {
            now: NodeSet::with_room(alloc, size)?,
            next: NodeSet::with_room(alloc, size)?,
        })
    }
}
