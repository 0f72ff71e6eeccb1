//! The program `usp`: makes the real files, streams, clocks, folders and connections, runs the command that the words
//! name over them, and ends with its status.
#![tactic(auto)]

mod limits;
mod outside;

ghost use Rattle.std.specs.Prelude.{◌≡◌, All, IfOk, length};
ghost use Rattle.usp_tool.specs.Edge.Desks.{IsEmpty};

use outside::{Folder, FolderObjects, Incoming, Outgoing, SystemClock, TcpDoor, TcpLink};
use std::alloc::{AllocError, Global};
use std::io::ErrorKind;
use std::net::TcpListener;
use std::process::ExitCode;
use std::rt::Runtime;
use std::{env, io};
use usp_base::Status;
use usp_ext::{Kit, equals, is_any, is_at_most, is_one_of, is_path_prefix};
use usp_lab::PlainBench;
use usp_tool::edge::{Shift, Worker, edge_of};
use usp_tool::run::{Outside, run_to_the_end};

// The words behind the program's name.
fn words_of<R: Runtime + AllocGlobal>(rt: &R) -> io::Result<Vec<String>> {
    let mut words = Vec::new(rt.alloc());
    let mut args = env::args(rt)?;
    let _ = args.next();
    for word in args {
        words.push(word)?;
    }
    Ok(words)
}

// So many workers, which share a listener, the clock of the system and the files below a folder.
fn workers_of<'a, R, L>(
    alloc: Global,
    rt: &'a R,
    listener: Option<&'a L>,
    folder: &'a str,
    count: u64,
) -> Result<Vec<Worker<TcpDoor<'a, R, L>, SystemClock<'a, R>, FolderObjects<'a, R>>>, AllocError>
    ensures count { IfOk result (λ workers. length workers.items ≡ count) }
    ensures empty { IfOk result (λ workers. All (λ w. IsEmpty w.shift) workers.items) }
{
    let mut workers = Vec::new(alloc);
    'workers: for _ in 0..count {
        workers.push(Worker {
            door: TcpDoor::new(rt, listener),
            clock: SystemClock::new(rt),
            objects: FolderObjects::new(rt, folder),
            shift: Shift::empty(alloc),
        })?;
    }
    Ok(workers)
}

fn main(rt: HostRuntime) -> ExitCode {
    let alloc = rt.alloc();
    let words = match words_of(&rt) {
        Ok(words) => words,
        Err(error) => {
            if error.kind() == ErrorKind::OutOfMemory {
                return Status::Memory.exit_code();
            }
            // A word that is no text is in no command.
            Vec::new(alloc)
        }
    };
    let edge = edge_of(&words);
    let (address, folder, count) = match &edge {
        Some(edge) => (Some(edge.address), edge.folder, edge.workers),
        None => (None, "", 0),
    };
    // Where the address can't be listened at, each door fails when it is asked.
    let listener = address.and_then(|address| TcpListener::bind(&rt, address).ok());
    let Ok(workers) = workers_of(alloc, &rt, listener.as_ref(), folder, count) else {
        return Status::Memory.exit_code();
    };
    let mut outside = Outside {
        files: Folder::new(&rt),
        input: Incoming::new(rt.reader()),
        out: Outgoing::new(io::writer(&rt)),
        workers,
        link: TcpLink::new(&rt),
        bench: PlainBench::new(),
        kit: Kit::new(is_any, equals, is_one_of, is_at_most, is_path_prefix),
    };
    run_to_the_end(&rt, alloc, &words, &mut outside)
}
