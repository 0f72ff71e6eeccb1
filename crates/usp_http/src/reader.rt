//! Heads, however the bytes of a connection are cut.
ghost use Rattle.std.specs.Prelude.{◌≡◌, ◌≤◌, ◌<◌, ◌+◌, ◌++◌, List, [], ℕ, Option, Some, None, true, length, drop, IfOk, OnErr, IsErr};
ghost use Rattle.std.specs.Io.KnownBytes.{prepend_known, IsAtEnd};
ghost use Rattle.usp_base.specs.Outside.{HasCause};
ghost use Rattle.usp_base.specs.Runs.{Runs};
ghost use Rattle.usp_http.specs.Finding.{AnswersHead, Held, HoldsHead, Stops, fault_of, next_of};
ghost use Rattle.usp_http.specs.Fronts.{IsFront};
ghost use Rattle.usp_http.specs.Pauses.{stop_of};
ghost use Rattle.usp_http.specs.declared.limits.TheConstants.{MAX_HEAD};
ghost use Rattle.usp_http.specs.declared.next.HeadFault.{HeadFault};

use crate::NoMemory;
use crate::buffer::{move_to_front, read_behind, room_of};
use crate::front::{Front, front_of};
use crate::limits::MAX_HEAD;
use crate::next::{HeadFault, Next};
use crate::pause::Pause;
use crate::room::Room;
use crate::scan::LineScan;
use std::alloc::Global;
use std::marker::Model;
use usp_base::{Failed, Source};

/// Reads the heads of requests from a source.
#[derive(Drop)]
pub struct HeadReader {
    alloc: Global,
    // As long as a head may be. What is held stands at `start` and has `len` bytes.
    bytes: Vec<u8>,
    start: usize,
    len: usize,
    room: Room,
    fault: Option<HeadFault>,
}

impl Model for HeadReader {
    ghost use Rattle.std.specs.Prelude.{◌≡◌, ◌≤◌, ◌+◌, take, drop, vec_len};
    ghost use Rattle.usp_http.specs.Reader.{Reader};
    ghost use Rattle.usp_http.specs.declared.limits.TheConstants.{MAX_HEAD};

    ghost Value = { Reader };

    ghost view = { λ r. record { held = take r.len (drop r.start r.bytes.items); fault = r.fault } };

    ghost invariant = { λ r. record {
      whole : vec_len r.bytes ≡ MAX_HEAD;
      within : r.start + r.len ≤ MAX_HEAD;
    } };
}

fn next_of(fault: HeadFault) -> Next
    ensures { result ≡ next_of fault }
{
    match fault {
        HeadFault::CutShort => Next::CutShort,
        HeadFault::BadHead => Next::BadHead,
        HeadFault::HeadTooLong => Next::HeadTooLong,
        HeadFault::ManyHeaders => Next::ManyHeaders,
    }
}

impl HeadReader {
    ghost use Rattle.std.specs.Prelude.{[], None};

    /// A reader that holds nothing. It takes the memory for the bytes of a head here, and that for its fields.
    pub fn new(alloc: Global) -> Result<HeadReader, NoMemory>
        ensures { IfOk result (λ r. (r.held ≡ []) × (r.fault ≡ None)) }
    {
        Ok(HeadReader {
            alloc,
            bytes: room_of(alloc, MAX_HEAD)?,
            start: 0,
            len: 0,
            room: Room::new(alloc)?,
            fault: None,
        })
    }

    /// The bytes that are in no head yet.
    fn held(&self) -> &[u8]
        ensures value { result.now ≡ self.now.held }
        ensures short { length result.now ≤ MAX_HEAD }
    {
        &self.bytes[self.start..][..self.len]
    }

    /// No head will come.
    fn halt(&mut self, fault: HeadFault) -> Next
        ensures result { result ≡ next_of fault }
        ensures held { self.new.held ≡ self.old.held }
        ensures fault { self.new.fault ≡ Some fault }
    {
        self.fault = Some(fault);
        next_of(fault)
    }

    /// What stands at the front of what is held.
    #[tactic(auto, using(crate::proofs::Heads::front_same))]
    fn look(&mut self) -> Front
        ensures front { IsFront self.old.held result }
        ensures short { length self.old.held ≤ MAX_HEAD }
        ensures held { self.new.held ≡ self.old.held }
        ensures fault { self.new.fault ≡ self.old.fault }
    {
        let held = &self.bytes[self.start..][..self.len];
        front_of(self.alloc, held, &mut self.room)
    }

    /// Lets the first bytes of what is held go. They are not moved.
    #[tactic(auto, using(crate::proofs::Buffers::fewer_held))]
    fn let_go(&mut self, count: usize)
        requires { count ≤ length self.old.held }
        ensures held { self.new.held ≡ drop count self.old.held }
        ensures fault { self.new.fault ≡ self.old.fault }
    {
        self.start += count;
        self.len -= count;
    }

    /// Reads once, and holds what was read.
    #[tactic(auto, using(crate::proofs::Buffers::more_held))]
    fn fill<S: Source>(&mut self, source: &mut S) -> Result<usize, Failed>
        requires { length self.old.held < MAX_HEAD }
        ensures taken { IfOk result (λ n. (bytes : List ℕ) × (length bytes ≡ n)
            × (self.new.held ≡ self.old.held ++ bytes)
            × (S.left source.old ≡ prepend_known bytes (S.left source.new))) }
        ensures over { IfOk result (λ n. n ≡ 0 → (S.ended source.new ≡ true) × IsAtEnd (S.left source.new)) }
        ensures failed { OnErr result ((S.left source.new ≡ S.left source.old) × (self.new.held ≡ self.old.held)) }
        ensures cause { HasCause (S.read_count source.old) (S.read_count source.new) (IsErr result) }
        ensures step { S.reads source.old source.new }
        ensures fault { self.new.fault ≡ self.old.fault }
    {
        let len = self.len;
        move_to_front(&mut self.bytes, self.start, len);
        self.start = 0;
        match read_behind(source, &mut self.bytes, len) {
            Ok(count) => {
                self.len = len + count;
                Ok(count)
            }
            Err(Failed) => Err(Failed),
        }
    }

    /// Reads on until a look for a head is worth its time, or no more bytes come. Each look goes over all that is
    /// held: so there is one only where a head may end, or where what is held has doubled.
    #[tactic(auto, using(crate::proofs::Reading::read_steps))]
    fn read_on<S: Source>(&mut self, source: &mut S) -> Pause
        requires { length self.old.held < MAX_HEAD }
        ensures read { Held self.old.held self.new.held (S.left source.old) (S.left source.new) }
        ensures grown { result ≡ Pause.Enough → length self.old.held < length self.new.held }
        ensures stops { Stops (stop_of result) (S.ended source.new) (S.left source.new)
            (S.read_count source.old) (S.read_count source.new) }
        ensures later { S.read_count source.old ≤ S.read_count source.new }
        ensures steps { Runs S.reads source.old source.new }
        ensures fault { self.new.fault ≡ self.old.fault }
    {
        let looked_at = self.held().len();
        let mut lines = LineScan::new();
        let _ = lines.may_end_in(self.held());
        'reading: loop {
            let before = self.held().len();
            match self.fill(source) {
                Ok(0) => return Pause::Over,
                Ok(_) => {}
                Err(Failed) => return Pause::Broken,
            }
            let len = self.held().len();
            if lines.may_end_in(&self.held()[before..]) || len >= looked_at * 2 || len >= MAX_HEAD {
                return Pause::Enough;
            }
        }
    }

    /// The next head. After `ReadFault` and `NoMemory` nothing is lost, and the call may be made again. After the other
    /// faults the same answer comes again. Where a whole head is held already, nothing is read.
    #[tactic(auto, using(crate::proofs::Reading::look_steps))]
    pub fn next_head<S: Source>(&mut self, source: &mut S) -> Next
        ensures answers { self.old.fault ≡ None → AnswersHead (record {
          left = S.left source.old;
          left_after = S.left source.new;
          ended = S.ended source.new;
          faults = S.read_count source.old;
          faults_after = S.read_count source.new;
        }) self.old.held self.new.held result }
        ensures again { (fault : HeadFault) → self.old.fault ≡ Some fault
            → (result ≡ next_of fault) × (self.new ≡ self.old) × (source.new ≡ source.old) }
        ensures fault { self.new.fault ≡ fault_of result }
        ensures unread { HoldsHead self.old.held → source.new ≡ source.old }
        ensures later { S.read_count source.old ≤ S.read_count source.new }
        ensures steps { Runs S.reads source.old source.new }
    {
        if let Some(fault) = self.fault {
            return next_of(fault);
        }
        let mut pause = Pause::Enough;
        'looking: loop {
            match self.look() {
                Front::Whole(head, len) => {
                    self.let_go(len);
                    return Next::Found(head);
                }
                Front::Many => return self.halt(HeadFault::ManyHeaders),
                Front::Bad => return self.halt(HeadFault::BadHead),
                Front::NoMemory => return Next::NoMemory,
                Front::Unfinished => {}
            }
            if self.held().len() >= MAX_HEAD {
                return self.halt(HeadFault::HeadTooLong);
            }
            match pause {
                Pause::Enough => {}
                Pause::Over => {
                    if self.held().is_empty() {
                        return Next::Ended;
                    }
                    return self.halt(HeadFault::CutShort);
                }
                Pause::Broken => return Next::ReadFault,
            }
            pause = self.read_on(source);
        }
    }
}
