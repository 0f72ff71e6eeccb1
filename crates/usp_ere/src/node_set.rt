//! A set of node numbers, in the order in which they came.
ghost use Rattle.std.specs.Prelude.{◌≡◌, ◌+◌, ◌<◌, ◌≤◌, not, [], ◌∷◌, ◌++◌, length, IfOk, IfSome, Some, slice_get};
ghost use Rattle.usp_ere.specs.NodeSets.{has, with_one};

use std::alloc::{AllocError, Global};
use std::marker::Model;

/// A set of node numbers: those whose mark is the stamp. It is emptied in one step, but for once in 65,535 times.
#[derive(Drop)]
pub struct NodeSet {
    marks: Vec<u16>,
    stamp: u16,
    list: Vec<u16>,
    room: usize,
}

impl Model for NodeSet {
    ghost use Rattle.std.specs.Prelude.{◌≤◌, All, length, take};
    ghost use Rattle.std.specs.Vec.{vec_capacity};
    ghost use Rattle.usp_ere.specs.NodeSets.{Members, IsStamped};

    ghost Value = { Members };

    ghost view = { λ s. record { most = length s.marks.items; room = s.room; list = s.list.items } };

    ghost invariant = { λ s. record {
      reserved : length s.marks.items ≤ vec_capacity s.list;
      within : s.room ≤ length s.marks.items;
      stamped : All (λ m. m ≤ s.stamp) s.marks.items;
      is : IsStamped (take s.room s.marks.items) s.stamp s.list.items;
    } };
}

impl NodeSet {
    /// An empty set with room for the numbers below one.
    pub fn with_room(alloc: Global, room: usize) -> Result<NodeSet, AllocError>
        ensures { IfOk result (λ set. set ≡ record { most = room; room = room; list = [] }) }
    {
        let marks = vec![in alloc; 0u16; room]?;
        Ok(NodeSet {
            marks,
            stamp: 1,
            list: Vec::with_capacity(alloc, room)?,
            room,
        })
    }

    /// Empties the set.
    #[inline(always)]
    pub fn clear(&mut self)
        ensures { self.new ≡ record { most = self.old.most; room = self.old.room; list = [] } }
    {
        let room = self.room;
        self.fit(room);
    }

    /// Empties the set, for the numbers below one.
    #[inline(always)]
    pub fn fit(&mut self, room: usize)
        requires { room ≤ self.old.most }
        ensures { self.new ≡ record { most = self.old.most; room = room; list = [] } }
    {
        self.list.clear();
        self.room = room;
        if self.stamp == u16::MAX {
            self.marks.fill(0);
            self.stamp = 0;
        }
        self.stamp += 1;
    }

    #[inline(always)]
    pub fn len(&self) -> usize
        ensures value { result ≡ length self.now.list }
        ensures within { result ≤ self.now.room }
    {
        self.list.len()
    }

    #[inline(always)]
    pub fn at(&self, place: usize) -> u16
        requires { place < length self.now.list }
        ensures value { slice_get self.now.list place ≡ Some result }
        ensures within { result < self.now.room }
    {
        self.list[place]
    }

    /// The member of a set that has one alone.
    #[inline(always)]
    #[tactic(auto, using(crate::proofs::NodeSetLemmas::lone))]
    pub fn alone(&self) -> Option<u16>
        ensures value { IfSome result (λ number. self.now.list ≡ number ∷ []) }
        ensures within { IfSome result (λ number. number < self.now.room) }
    {
        if self.len() == 1 {
            Some(self.at(0))
        } else {
            None
        }
    }

    /// Adds a number, and answers whether it is new.
    #[inline(always)]
    pub fn add(&mut self, number: u16) -> bool
        requires { number < self.old.room }
        ensures new { result ≡ not (has number self.old.list) }
        ensures after { self.new ≡ record {
          most = self.old.most;
          room = self.old.room;
          list = with_one self.old.list number;
        } }
    {
        let new = self.marks[number as usize] != self.stamp;
        if new {
            self.marks[number as usize] = self.stamp;
            self.list.push(number).unwrap();
        }
        new
    }
}
