//! Objects by their content URI.
ghost use Rattle.std.specs.Prelude.{◌≡◌, List, ℕ, Option, Some, IfOk, IfSome, IsErrOf};
ghost use Rattle.std.specs.Option.{option_map};
ghost use Rattle.usp_base.specs.Outside.{HasCause, file_of};

use crate::files::copy_named;
use crate::{Failures, LoadFault, MemoryFile};
use std::alloc::Global;

/// Where the objects of an edge come from.
pub trait Objects {
    /// The object of each content URI that has one, where they are told.
    ghost objects: { Self → Option (List ℕ → Option (List ℕ)) };

    /// How often a read has failed.
    ghost object_count: { Self → ℕ };

    /// The object of that content URI. None says that there is none.
    fn read(&mut self, alloc: Global, uri: &[u8]) -> Result<Option<Vec<u8>>, LoadFault>
        ensures found { IfOk result (λ object. IfSome (objects self.old)
            (λ of. option_map (λ bytes. bytes.items) object ≡ of uri.now)) }
        ensures same { objects self.new ≡ objects self.old }
        ensures cause { HasCause (object_count self.old) (object_count self.new) (IsErrOf result LoadFault.Failed) };

    /// How often a read has failed.
    fn object_faults(&self) -> u64
        ensures { result ≡ object_count self.now };
}

/// Objects in memory, of which some reads fail. Each failure is counted.
#[derive(Drop)]
pub struct ListedObjects {
    objects: Vec<MemoryFile>,
    failures: Failures,
}

impl ListedObjects {
    ghost use Rattle.usp_base.specs.Failing.{none_yet};
    ghost use Rattle.usp_base.specs.Memory.{listed_object_reads, listed_objects};

    /// The reads whose places, from 0, are in `failing` fail. Of equal URIs the first counts.
    pub fn new(objects: Vec<MemoryFile>, failing: Vec<u64>) -> ListedObjects
        ensures objects { listed_objects result ≡ objects.items }
        ensures failing { listed_object_reads result ≡ none_yet failing.items }
    {
        ListedObjects {
            objects,
            failures: Failures::new(failing),
        }
    }
}

impl Objects for ListedObjects {
    ghost use Rattle.usp_base.specs.Memory.{listed_object_faults, listed_objects};

    ghost objects = { λ o. Some (file_of (listed_objects o)) };

    ghost object_count = { λ o. listed_object_faults o };

    fn read(&mut self, alloc: Global, uri: &[u8]) -> Result<Option<Vec<u8>>, LoadFault> {
        if self.failures.count_call() {
            return Err(LoadFault::Failed);
        }
        Ok(copy_named(alloc, &self.objects, uri)?)
    }

    fn object_faults(&self) -> u64 {
        self.failures.faults()
    }
}

/// Objects in memory whose reads never fail.
#[derive(Drop)]
pub struct SteadyObjects {
    objects: Vec<MemoryFile>,
}

impl SteadyObjects {
    ghost use Rattle.usp_base.specs.Memory.{steady_objects};

    /// Of equal URIs the first counts.
    pub fn new(objects: Vec<MemoryFile>) -> SteadyObjects
        ensures { steady_objects result ≡ objects.items }
    {
        SteadyObjects { objects }
    }
}

impl Objects for SteadyObjects {
    ghost use Rattle.usp_base.specs.Memory.{steady_objects};

    ghost objects = { λ o. Some (file_of (steady_objects o)) };

    ghost object_count = { λ _. 0 };

    fn read(&mut self, alloc: Global, uri: &[u8]) -> Result<Option<Vec<u8>>, LoadFault> {
        Ok(copy_named(alloc, &self.objects, uri)?)
    }

    fn object_faults(&self) -> u64 {
        0
    }
}
