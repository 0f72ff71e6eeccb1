//! The claims that have a test.

ghost use Rattle.std.specs.Prelude.{◌≡◌, ◌↔◌, ◌<◌, true, false, [], ◌∷◌, ◌++◌, OnErr, OnOk, IfErr};
ghost use Rattle.std.specs.List.{find};
ghost use Rattle.std.specs.Option.{is_some, option_copied};
ghost use Rattle.usp_ext.specs.Listed.{is_of, is_listed, listed_of, means_of, extension, RefusesExtension};

use crate::{Extension, Kit, Setting, TestKind};
use std::alloc::{AllocFailed, Global};
use std::error::Error;
use std::fmt;
use std::marker::Model;
use usp_base::MOMENT_BOUND;
use usp_json::{Json, Text};

/// Why an extension is not added.
#[derive(Clone, Copy, Debug, PartialEq, Eq)]
pub enum ExtFault {
    /// The claim has a test already.
    Repeat,
    /// There was no memory.
    NoMemory,
}

impl ExtFault {
    /// Whether this is want of memory, which says nothing of the claim.
    pub fn is_memory(self) -> bool
        ensures { (result ≡ true) ↔ (self ≡ ExtFault.NoMemory) }
    {
        matches!(self, ExtFault::NoMemory)
    }
}

impl fmt::Display for ExtFault {
    fn fmt<W: fmt::Write>(&self, f: &mut fmt::Formatter<W>) -> fmt::Result {
        match self {
            ExtFault::Repeat => write!(f, "a claim has two tests: take out one of them"),
            ExtFault::NoMemory => write!(f, "out of memory"),
        }
    }
}

impl Error for ExtFault {}

impl<T: Drop> From<AllocFailed<T>> for ExtFault {
    ghost use Rattle.std.specs.Prelude.{◌≡◌};
    ghost use Rattle.usp_ext.specs.declared.extensions.ExtFault.TheVariants.{NoMemory};

    ghost from_gives = { λ _ e. e ≡ NoMemory };

    fn from(_: AllocFailed<T>) -> Self {
        ExtFault::NoMemory
    }
}

/// What a test is asked beside the value.
#[derive(Clone, Copy, Debug)]
pub struct Facts<'a> {
    /// The path of the content.
    pub path: &'a [u8],
    /// Seconds since 1970, below `usp_base::MOMENT_BOUND`.
    pub moment: u64,
}

/// Claims, each with the kind and the setting of its test. Contracts see them in their order.
#[derive(Drop)]
pub struct Extensions {
    listed: Vec<Extension>,
}

impl Model for Extensions {
    ghost use Rattle.std.specs.Prelude.{List};
    ghost use Rattle.std.specs.Coded.{codes};
    ghost use Rattle.usp_json.specs.contracts.value.Json as e;
    ghost use Rattle.usp_ext.specs.declared.kinds.Extension.{Extension};

    ghost Value = { List Extension };

    ghost coded = { Prim.hlevel (codes, e.the_row.coded) };

    ghost view = { λ e. e.listed.items };
}

// Whether the extension is of that claim.
fn is_of(extension: &Extension, claim: &[u8]) -> bool
    ensures { result ≡ is_of claim.now extension.now }
{
    extension.claim.text().as_bytes() == claim
}

// The extension of that claim.
fn listed_of<'a>(listed: &'a [Extension], claim: &[u8]) -> Option<&'a Extension>
    ensures { option_copied result ≡ listed_of claim.now listed.now }
{
    listed.iter().find(|extension| is_of(*extension, claim))
}

// Adds an extension at the end. Where it is refused, it is dropped.
fn add(listed: &mut Vec<Extension>, extension: Extension) -> Result<(), ExtFault>
    ensures added { OnOk result (listed.new.items ≡ listed.old.items ++ extension ∷ []) }
    ensures fresh { OnOk result (is_listed extension.claim listed.old.items ≡ false) }
    ensures refused { IfErr result (λ fault.
        RefusesExtension fault extension.claim listed.old.items) }
    ensures unchanged { OnErr result (listed.new.items ≡ listed.old.items) }
{
    if listed_of(listed, extension.claim.text().as_bytes()).is_some() {
        return Err(ExtFault::Repeat);
    }
    listed.push(extension)?;
    Ok(())
}

impl Extensions {
    /// No claims. What is added takes its memory from `alloc`.
    pub fn empty(alloc: Global) -> Extensions
        ensures { result ≡ [] }
    {
        Extensions {
            listed: Vec::new(alloc),
        }
    }

    /// The claims in their order.
    pub fn as_slice(&self) -> &[Extension]
        ensures { result.now ≡ self.now }
    {
        &self.listed
    }

    /// Adds a claim at the end. Where it is refused, it is dropped.
    pub fn push(&mut self, claim: Text, kind: TestKind, setting: Setting) -> Result<(), ExtFault>
        ensures added { OnOk result (self.new ≡ self.old ++ extension claim kind setting ∷ []) }
        ensures fresh { OnOk result (is_listed claim self.old ≡ false) }
        ensures refused { IfErr result (λ fault. RefusesExtension fault claim self.old) }
        ensures unchanged { OnErr result (self.new ≡ self.old) }
    {
        add(
            &mut self.listed,
            Extension {
                claim,
                kind,
                setting,
            },
        )
    }

    /// Whether the value of that claim passes its test, by the kit's function of that kind. None exactly
    /// where the claim has none. It takes no memory.
    pub fn holds(&self, kit: &Kit, claim: &[u8], value: &Json, facts: &Facts<'_>) -> Option<bool>
        requires { facts.now.moment < MOMENT_BOUND }
        ensures { result ≡ means_of self.now claim.now value.now facts.now.path.now }
    {
        let extension = listed_of(&self.listed, claim)?;
        Some(kit.answer(
            extension.kind,
            &extension.setting,
            value,
            facts.path,
            facts.moment,
        ))
    }
}
