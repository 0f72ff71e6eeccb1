//! Copies.

ghost use Rattle.std.specs.Prelude.{◌≡◌, IfOk};

use crate::{Items, Json, Members, NoMemory, NumText, Text};
use sqlite_items::Items as Row;
use std::alloc::Global;

impl Json {
    /// Another value of the same tree.
    #[cycle(copies)]
    pub fn copy(&self, alloc: Global) -> Result<Json, NoMemory>
        ensures { IfOk result (λ copied. copied ≡ self.now) }
    {
        match self {
            Json::Null => Ok(Json::Null),
            Json::Bool(is) => Ok(Json::Bool(*is)),
            Json::Num(number) => Ok(Json::Num(number.copy(alloc)?)),
            Json::Str(text) => Ok(Json::Str(Text::of(alloc, text.text())?)),
            Json::List(items) => {
                let mut values = Row::new(alloc);
                'values: for value in items.values.as_slice() {
                    values.push(value.copy(alloc)?)?;
                }
                Ok(Json::List(Items { values }))
            }
            Json::Obj(members) => Ok(Json::Obj(members.copy(alloc)?)),
        }
    }
}

impl Members {
    /// Other members of the same tree.
    #[cycle(copies)]
    pub fn copy(&self, alloc: Global) -> Result<Members, NoMemory>
        ensures { IfOk result (λ copied. copied ≡ self.now) }
    {
        let mut names = Row::new(alloc);
        'names: for name in self.names.as_slice() {
            names.push(Text::of(alloc, name.text())?)?;
        }
        let mut values = Row::new(alloc);
        'members: for value in self.values.as_slice() {
            values.push(value.copy(alloc)?)?;
        }
        Ok(Members { names, values })
    }
}
