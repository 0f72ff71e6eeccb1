//! The files of the system.
ghost use Rattle.std.specs.Prelude.{◌≡◌, None};

use std::alloc::Global;
use std::fs;
use std::io::ErrorKind;
use usp_base::{Files, LoadFault};

/// The files of the system.
#[derive(Drop)]
pub struct Folder<'a, R> {
    rt: &'a R,
    faults: u64,
}

impl<'a, R> Folder<'a, R> {
    pub fn new(rt: &'a R) -> Self {
        Folder { rt, faults: 0 }
    }
}

impl<'a, R: std::rt::Files + AllocGlobal> Files for Folder<'a, R> {
    ghost files = { λ _. None };

    ghost asked = { λ _. None };

    ghost file_count = { λ f. f.faults };

    fn load(&mut self, _alloc: Global, name: &str) -> Result<Vec<u8>, LoadFault> {
        match fs::read(self.rt, name) {
            Ok(bytes) => Ok(bytes),
            Err(error) => {
                if error.kind() == ErrorKind::OutOfMemory {
                    return Err(LoadFault::NoMemory);
                }
                self.faults = self.faults.saturating_add(1);
                Err(LoadFault::Failed)
            }
        }
    }

    fn file_faults(&self) -> u64 {
        self.faults
    }
}
