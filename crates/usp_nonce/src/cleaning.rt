//! Rows that are over go, and the index is made anew.
ghost use Rattle.std.specs.Prelude.{◌≡◌, ◌≤◌, ℕ, ◌<◌, filter, length, vec_len};
ghost use Rattle.std.specs.Vec.{vec_capacity};
ghost use Rattle.usp_nonce.specs.Hash.{hashes_of};
ghost use Rattle.usp_nonce.specs.Table.{is_above};

use crate::index::Index;
use crate::row::Row;

// Indexes the rows anew.
fn index_rows(index: &mut Index, rows: &[Row])
    requires { length rows.now ≤ index.old.room }
    ensures { (index.new.hashes ≡ hashes_of rows.now) × (index.new.room ≡ index.old.room) }
{
    index.clear();
    for row in rows {
        index.push(row.key().hash());
    }
}

// Lets go the rows that are not held beyond a moment, where the list is full.
pub(crate) fn make_room(rows: &mut Vec<Row>, index: &mut Index, moment: u64)
    requires indexed { index.old.hashes ≡ hashes_of rows.old.items }
    requires room { vec_len rows.old ≤ index.old.room }
    requires held { length (filter (is_above moment) rows.old.items) < index.old.room }
    ensures kept { (m : ℕ) → moment ≤ m
        → filter (is_above m) rows.new.items ≡ filter (is_above m) rows.old.items }
    ensures capacity { vec_capacity rows.old ≤ vec_capacity rows.new }
    ensures space { vec_len rows.new < index.new.room }
    ensures indexed { (index.new.hashes ≡ hashes_of rows.new.items)
        × (index.new.room ≡ index.old.room) }
{
    if rows.len() < index.room() {
        return;
    }
    rows.retain(|row| row.is_above(moment));
    index_rows(index, rows);
}
