//! The tables of the edges, opened before the first round and closed behind the last.
ghost use Rattle.std.specs.Prelude.{◌≡◌, All, IfOk, OnOk, map};
ghost use Rattle.usp_lab.specs.Tables.{IsWhole};
ghost use Rattle.usp_lab.specs.UnderWay.{AreFresh, IsOneHistory, calls_made};

use crate::NoMemory;
use crate::table::EdgeTable;
use std::alloc::Global;
use usp_conf::Conf;

/// A table for each edge.
pub(crate) fn open_tables(alloc: Global, edges: &[Conf]) -> Result<Vec<EdgeTable>, NoMemory>
    ensures { IfOk result (λ tables. AreFresh edges.now tables.items) }
{
    let mut tables = Vec::new(alloc);
    'edges: for edge in edges {
        tables.push(EdgeTable::open(alloc, edge)?)?;
    }
    Ok(tables)
}

/// Closes the tables, and answers how many calls were made at each.
pub(crate) fn close_tables(alloc: Global, tables: Vec<EdgeTable>) -> Result<Vec<u64>, NoMemory>
    requires { All IsWhole tables.items }
    ensures calls { IfOk result (λ calls. calls.items ≡ map calls_made tables.items) }
    ensures one { OnOk result (All IsOneHistory tables.items) }
{
    let mut calls = Vec::new(alloc);
    'tables: for table in tables {
        calls.push(table.close())?;
    }
    Ok(calls)
}
