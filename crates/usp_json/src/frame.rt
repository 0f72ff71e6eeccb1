//! The arrays and objects that are open while a text is read.

use crate::{Json, Text};
use sqlite_items::Items as Row;

/// What was read of an array or an object. An object has a name more than it has values while its value is read.
#[derive(Drop)]
pub enum Frame {
    Array { values: Row<Json> },
    Object { names: Row<Text>, values: Row<Json> },
}
