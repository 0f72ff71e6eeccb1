//! Values of JSON, their lists and their members.

ghost use Rattle.std.specs.Prelude.{◌≡◌, ◌<◌, [], ◌∷◌, ◌++◌, length, slice_get, Some, IfSome, OnOk, OnErr};
ghost use Rattle.std.specs.List.{list_all, list_any};
ghost use Rattle.std.specs.Option.{option_copied};
ghost use Rattle.std.specs.Str.{IsUtf8};
ghost use Rattle.usp_json.specs.Grammar.{IsNumber};
ghost use Rattle.usp_json.specs.Scalars.{number_in, text_in};
ghost use Rattle.usp_json.specs.Values.{is_text, is_texts, is_this, lists};

use crate::{NoMemory, NumText, Text};
use sqlite_items::Items as Row;
use std::alloc::Global;

/// A value of JSON (RFC 8259 section 3).
#[cycle(json)]
#[derive(Drop)]
pub enum Json {
    Null,
    Bool(bool),
    Num(NumText),
    Str(Text),
    List(Items),
    Obj(Members),
}

/// The values of an array, in order.
#[cycle(json)]
#[derive(Drop)]
pub struct Items {
    pub(crate) values: Row<Json>,
}

/// The members of an object, in order: the names, and beside each its value.
#[cycle(json)]
#[derive(Drop)]
pub struct Members {
    pub(crate) names: Row<Text>,
    pub(crate) values: Row<Json>,
}

impl Json {
    /// The text that this value is.
    pub fn text(&self) -> Option<&[u8]>
        ensures value { option_copied result ≡ text_in self.now }
        ensures utf8 { IfSome result (λ text. IsUtf8 text.now) }
    {
        match self {
            Json::Str(text) => Some(text.text().as_bytes()),
            _ => None,
        }
    }

    /// The spelling of the number that this value is.
    pub fn number(&self) -> Option<&[u8]>
        ensures value { option_copied result ≡ number_in self.now }
        ensures number { IfSome result (λ spelled. IsNumber spelled.now) }
    {
        match self {
            Json::Num(number) => Some(number.text()),
            _ => None,
        }
    }

    /// Whether this value is a text.
    pub fn is_text(&self) -> bool
        ensures { result ≡ is_text self.now }
    {
        self.text().is_some()
    }

    /// Whether this value is the text of these bytes.
    pub fn is_this(&self, text: &[u8]) -> bool
        ensures { result ≡ is_this text.now self.now }
    {
        match self.text() {
            None => false,
            Some(other) => other == text,
        }
    }

    /// Whether this value is a list of texts alone.
    pub fn is_texts(&self) -> bool
        ensures { result ≡ is_texts self.now }
    {
        match self {
            Json::List(items) => items.are_texts(),
            _ => false,
        }
    }

    /// Whether this value is a list that has the text of these bytes.
    pub fn lists(&self, text: &[u8]) -> bool
        ensures { result ≡ lists text.now self.now }
    {
        match self {
            Json::List(items) => items.has_text(text),
            _ => false,
        }
    }
}

impl Items {
    /// No values. What is pushed later takes its memory from `alloc`.
    pub fn new(alloc: Global) -> Items
        ensures { result.values ≡ [] }
    {
        Items {
            values: Row::new(alloc),
        }
    }

    /// How many values there are.
    pub fn len(&self) -> usize
        ensures { result ≡ length self.now.values }
    {
        self.values.len()
    }

    /// The value at that place, counted from 0.
    pub fn at(&self, place: usize) -> &Json
        requires { place < length self.now.values }
        ensures { slice_get self.now.values place ≡ Some result.now }
    {
        &self.values.as_slice()[place]
    }

    /// Adds a value at the end. Where there is no memory, the value is dropped.
    pub fn push(&mut self, value: Json) -> Result<(), NoMemory>
        ensures ok { OnOk result (self.new.values ≡ self.old.values ++ value ∷ []) }
        ensures err { OnErr result (self.new.values ≡ self.old.values) }
    {
        self.values.push(value)?;
        Ok(())
    }

    /// Whether each value is a text.
    pub fn are_texts(&self) -> bool
        ensures { result ≡ list_all is_text self.now.values }
    {
        for place in 0..self.len() {
            if !self.at(place).is_text() {
                return false;
            }
        }
        true
    }

    /// Whether some value is the text of these bytes.
    pub fn has_text(&self, text: &[u8]) -> bool
        ensures { result ≡ list_any (is_this text.now) self.now.values }
    {
        for place in 0..self.len() {
            if self.at(place).is_this(text) {
                return true;
            }
        }
        false
    }
}
