//! A hashed index over row numbers.
ghost use Rattle.std.specs.Prelude.{◌≡◌, ◌+◌, ◌-◌, ◌<◌, ◌≤◌, ◌^◌, ◌++◌, ◌∷◌, [], ℕ, Some, IfOk, slice_get, slice_index, length};
ghost use Rattle.usp_nonce.specs.Index.{OnChain, bucket};
ghost use Rattle.usp_nonce.specs.declared.limits.TheConstants.{MAX_ROWS};

use std::alloc::{AllocError, Global};
use std::marker::Model;

/// For each row, its hash and the number of the row of the same head that was there before it; and for each
/// head the number of its newest row. Number 0 is none, and r + 1 is that of row r. Rows are added, and all let go.
#[derive(Drop, Debug)]
pub struct Index {
    heads: Vec<u32>,
    next: Vec<u32>,
    hashes: Vec<u32>,
    room: u32,
}

impl Model for Index {
    ghost use Rattle.std.specs.Prelude.{◌≤◌, ◌<◌, length};
    ghost use Rattle.std.specs.Vec.{vec_capacity};
    ghost use Rattle.usp_nonce.specs.Index.{Indexed, IsIndexed};

    ghost Value = { Indexed };

    ghost view = { λ index. record {
      room = index.room;
      hashes = index.hashes.items;
      heads = index.heads.items;
      next = index.next.items;
    } };

    ghost invariant = { λ index. record {
      some : 0 < length index.heads.items;
      next_reserved : index.room ≤ vec_capacity index.next;
      hashes_reserved : index.room ≤ vec_capacity index.hashes;
      is : IsIndexed index.hashes.items index.heads.items index.next.items;
    } };
}

impl Index {
    /// An index for up to `room` rows, with twice as many heads.
    pub fn with_room(alloc: Global, room: u32) -> Result<Index, AllocError>
        requires some { 0 < room }
        requires bounded { room ≤ MAX_ROWS }
        ensures { IfOk result (λ index. (index.hashes ≡ []) × (index.room ≡ room)) }
    {
        let heads = vec![in alloc; 0u32; 2 * room as usize]?;
        Ok(Index {
            heads,
            next: Vec::with_capacity(alloc, room as usize)?,
            hashes: Vec::with_capacity(alloc, room as usize)?,
            room,
        })
    }

    /// For how many rows there is room.
    pub fn room(&self) -> usize
        ensures { result ≡ self.now.room }
    {
        self.room as usize
    }

    /// Lets all rows go.
    pub fn clear(&mut self)
        ensures { (self.new.hashes ≡ []) × (self.new.room ≡ self.old.room) }
    {
        self.heads.fill(0);
        self.next.clear();
        self.hashes.clear();
    }

    /// Adds the next row, by its hash.
    pub fn push(&mut self, hash: u32)
        requires { length self.old.hashes < self.old.room }
        ensures { (self.new.hashes ≡ self.old.hashes ++ hash ∷ [])
            × (self.new.room ≡ self.old.room) }
    {
        let head = hash as usize % self.heads.len();
        let before = self.heads[head];
        self.heads[head] = self.next.len() as u32 + 1;
        self.next.push(before).unwrap();
        self.hashes.push(hash).unwrap();
    }

    /// The number of the newest row that may have the hash: each row that has it is on the chain from there.
    pub fn first(&self, hash: u32) -> u32
        ensures within { result ≤ length self.now.hashes }
        ensures listed { (r : ℕ) → slice_get self.now.hashes r ≡ Some hash
            → OnChain self.now.next result r }
    {
        self.heads[hash as usize % self.heads.len()]
    }

    /// The number behind one on its chain.
    pub fn behind(&self, number: u32) -> u32
        requires some { 0 < number }
        requires within { number ≤ length self.now.hashes }
        ensures falls { result < number }
        ensures goes { (r : ℕ) → OnChain self.now.next number r → (number ≡ r + 1 → ⊥)
            → OnChain self.now.next result r }
    {
        self.next[number as usize - 1]
    }

    /// The hash of the row of a number.
    pub fn hash_at(&self, number: u32) -> u32
        requires some { 0 < number }
        requires within { number ≤ length self.now.hashes }
        ensures { slice_get self.now.hashes (number - 1) ≡ Some result }
    {
        self.hashes[number as usize - 1]
    }
}
