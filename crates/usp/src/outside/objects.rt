//! The objects of an edge as files below a folder.
ghost use Rattle.std.specs.Prelude.{◌≡◌, None};

use crate::outside::names::{name_below, path_of};
use std::alloc::{AllocError, Global};
use std::fs::{File, OpenFile};
use std::io;
use std::io::{Error, ErrorKind, Read};
use std::rt::Files;
use std::str::from_utf8;
use usp_base::{LoadFault, Objects};

/// The files below a folder. The object of a content URI is the file whose name is the folder and the URI's path, put
/// together as texts, where each escape of the path is its byte. It is not there where such a name does not lead to a
/// file below the folder: by the path's segments, or by links.
#[derive(Drop)]
pub struct FolderObjects<'a, R> {
    rt: &'a R,
    folder: &'a str,
    faults: u64,
}

impl<'a, R> FolderObjects<'a, R> {
    pub fn new(rt: &'a R, folder: &'a str) -> Self {
        FolderObjects {
            rt,
            folder,
            faults: 0,
        }
    }
}

// Whether a path without links is below a folder without links: a '/' stands behind the folder's name.
fn is_below(folder: &str, path: &str) -> bool {
    matches!(
        path.as_bytes().strip_prefix(folder.as_bytes()),
        Some([b'/', ..])
    )
}

// The whole file, if it is one. One whose length changes while it is read is an error.
fn read_whole<R: Files>(rt: &R, alloc: Global, path: &str) -> io::Result<Option<Vec<u8>>> {
    // What is no file is not opened: to open a pipe would wait for its writer.
    if !rt.symlink_metadata(path)?.is_file() {
        return Ok(None);
    }
    let mut file = File::open(rt, path)?;
    let Ok(len) = usize::try_from(file.metadata()?.len()) else {
        return Err(Error::from(ErrorKind::OutOfMemory));
    };
    let mut bytes = vec![in alloc; 0u8; len]?;
    file.read_exact(&mut bytes)?;
    let mut more = [0u8; 1];
    if file.read(&mut more)? > 0 {
        return Err(Error::from(ErrorKind::InvalidData));
    }
    Ok(Some(bytes))
}

// The file behind the folder's name and that name, if it is below the folder.
fn read_below<R: Files>(
    rt: &R,
    alloc: Global,
    folder: &str,
    name: &str,
) -> io::Result<Option<Vec<u8>>> {
    let top = rt.canonicalize(alloc, folder)?.into_string();
    let path = rt
        .canonicalize(alloc, joined(alloc, folder, name)?.as_str())?
        .into_string();
    // The folder "/" alone has a '/' at its end.
    if !is_below(top.as_str().trim_end_matches('/'), path.as_str()) {
        return Ok(None);
    }
    read_whole(rt, alloc, path.as_str())
}

// Both texts, one behind the other.
fn joined(alloc: Global, folder: &str, name: &str) -> Result<String, AllocError> {
    let mut text = String::from_str(alloc, folder)?;
    text.push_str(name)?;
    Ok(text)
}

impl<'a, R: Files> Objects for FolderObjects<'a, R> {
    ghost objects = { λ _. None };

    ghost object_count = { λ o. o.faults };

    fn read(&mut self, alloc: Global, uri: &[u8]) -> Result<Option<Vec<u8>>, LoadFault> {
        let Some(name) = name_below(alloc, path_of(uri))? else {
            return Ok(None);
        };
        // A name of the system is text.
        let Ok(name) = from_utf8(&name) else {
            return Ok(None);
        };
        match read_below(self.rt, alloc, self.folder, name) {
            Ok(found) => Ok(found),
            Err(e) => {
                // Only what is not found is no object.
                if e.kind() == ErrorKind::NotFound {
                    return Ok(None);
                }
                if e.kind() == ErrorKind::OutOfMemory {
                    return Err(LoadFault::NoMemory);
                }
                self.faults = self.faults.saturating_add(1);
                Err(LoadFault::Failed)
            }
        }
    }

    fn object_faults(&self) -> u64 {
        self.faults
    }
}
