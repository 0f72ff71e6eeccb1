//! The objects of a script.
ghost use Rattle.std.specs.Prelude.{◌≡◌, List, ℕ, Option, IfOk};
ghost use Rattle.std.specs.Option.{option_map};
ghost use Rattle.usp_script.specs.Script.{object_at};

use std::alloc::{AllocError, Global};
use usp_base::{LoadFault, Objects};
use usp_script::LabObject;

/// The objects that a script gives an edge. Reads of them never fail.
#[derive(Drop)]
pub(crate) struct ScriptObjects<'a> {
    pub objects: &'a [LabObject],
    /// The place of the edge.
    pub edge: u32,
}

// A copy of the first object of that edge and that URI.
fn copy_object(
    alloc: Global,
    objects: &[LabObject],
    edge: u32,
    uri: &[u8],
) -> Result<Option<Vec<u8>>, AllocError>
    ensures { IfOk result (λ found.
        option_map (λ bytes. bytes.items) found ≡ object_at objects.now edge uri.now) }
{
    for object in objects {
        if object.edge == edge && object.uri.text() == uri {
            return Ok(Some(object.text.bytes().to_vec(alloc)?));
        }
    }
    Ok(None)
}

impl<'a> Objects for ScriptObjects<'a> {
    ghost use Rattle.std.specs.Prelude.{Some};
    ghost use Rattle.usp_lab.specs.AskMemory.{objects_of};

    ghost objects = { λ of. Some (objects_of of) };

    ghost object_count = { λ _. 0 };

    fn read(&mut self, alloc: Global, uri: &[u8]) -> Result<Option<Vec<u8>>, LoadFault> {
        Ok(copy_object(alloc, self.objects, self.edge, uri)?)
    }

    fn object_faults(&self) -> u64 {
        0
    }
}
