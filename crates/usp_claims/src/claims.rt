//! Claim sets.

ghost use Rattle.std.specs.Prelude.{◌≡◌, ◌+◌, ◌≤◌, ◌||◌, true, not, codes, length, None, Some, IfOk, IfErr};
ghost use Rattle.std.specs.List.{find};
ghost use Rattle.std.specs.Option.{is_some, option_copied, option_map};
ghost use Rattle.usp_json.specs.Canon.{canon, canon_members};
ghost use Rattle.usp_json.specs.Entries.{entries};
ghost use Rattle.usp_json.specs.Kept.{Keeps, KeepsLimits};
ghost use Rattle.usp_json.specs.Spells.{IsReading, given};
ghost use Rattle.usp_claims.specs.Changes.{AreNamed, with_claim};
ghost use Rattle.usp_claims.specs.Table.{IsClaimSet, claim, fits, is_audience, name_of, number_claim, period_claim, row, text_claim};
ghost use Rattle.usp_claims.specs.declared.table.ClaimKind.TheVariants.{Number, Period, Text};
ghost use Rattle.usp_claims.specs.Faults.{RefusesClaims, failure, fault_in, first_failing};

use crate::changes::change;
use crate::table::ROWS;
use crate::values::{has_kind, in_range, is_audience, period_in, whole_in};
use crate::{ClaimFault, ClaimName, MAX_CANONICAL, MAX_PAYLOAD, NoMemory, Row};
use std::alloc::Global;
use std::marker::Model;
use usp_json::{Json, MAX_MEMBERS, Members, canonical_len, read_members, write_members};

// Whether the row's claim is absent, or of its kind and in its range.
fn fits(members: &Members, row: Row) -> bool
    ensures { result ≡ fits members.now row }
{
    match members.find(row.name.name().as_bytes()) {
        None => true,
        Some(value) => has_kind(row.kind, value) && in_range(row.kind, value),
    }
}

// The first of the rows that the members fail.
fn first_of(members: &Members, rows: &[Row]) -> Option<Row>
    ensures { result ≡ find (λ row. not (fits members.now row)) rows.now }
{
    for row in rows {
        if !fits(members, *row) {
            return Some(*row);
        }
    }
    None
}

fn first_failing(members: &Members) -> Option<Row>
    ensures { result ≡ first_failing members.now }
{
    first_of(members, &ROWS)
}

// How the members fail the row.
fn failure(members: &Members, row: Row) -> ClaimFault
    ensures { result ≡ failure members.now row }
{
    let name = row.name;
    match members.find(name.name().as_bytes()) {
        None => ClaimFault::Range { name },
        Some(value) => {
            if has_kind(row.kind, value) {
                ClaimFault::Range { name }
            } else {
                ClaimFault::Kind { name }
            }
        }
    }
}

// Why the members are no claim set.
fn fault_in(members: &Members) -> Option<ClaimFault>
    ensures { result ≡ fault_in members.now }
{
    match first_failing(members) {
        Some(row) => Some(failure(members, row)),
        None => match members.find(b"cdniuc") {
            None => Some(ClaimFault::NoContainer),
            Some(_) => None,
        },
    }
}

// A claim that is a text.
fn text_claim(members: &Members, name: ClaimName) -> Option<&[u8]>
    requires { fits members.now (row name Text) ≡ true }
    ensures value { option_copied result ≡ text_claim (name_of name) members.now }
    ensures there { is_some result ≡ is_some (claim (name_of name) members.now) }
{
    members.find(name.name().as_bytes())?.text()
}

// A claim that is a number.
fn number_claim(members: &Members, name: ClaimName) -> Option<u64>
    requires { fits members.now (row name Number) ≡ true }
    ensures value { result ≡ number_claim (name_of name) members.now }
    ensures there { is_some result ≡ is_some (claim (name_of name) members.now) }
{
    whole_in(members.find(name.name().as_bytes())?)
}

// A claim that is a period.
fn period_claim(members: &Members, name: ClaimName) -> Option<u64>
    requires { fits members.now (row name Period) ≡ true }
    ensures value { result ≡ period_claim (name_of name) members.now }
    ensures there { is_some result ≡ is_some (claim (name_of name) members.now) }
{
    period_in(members.find(name.name().as_bytes())?)
}

/// The claims of a signed URI. Contracts see their members.
#[derive(Drop)]
pub struct Claims {
    members: Members,
}

impl Model for Claims {
    ghost use Rattle.std.specs.Prelude.{◌≡◌, ◌≤◌, length};
    ghost use Rattle.usp_json.specs.Canon.{canon_members};
    ghost use Rattle.std.specs.Coded.{codes};
    ghost use Rattle.usp_json.specs.contracts.value.Members as e;
    ghost use Rattle.usp_json.specs.declared.value.Members.{Members};
    ghost use Rattle.usp_claims.specs.Table.{IsClaimSet};
    ghost use Rattle.usp_claims.specs.Changes.{AreNamed};
    ghost use Rattle.usp_claims.specs.declared.limits.TheConstants.{MAX_CANONICAL};

    ghost Value = { Members };

    ghost coded = { Prim.hlevel (codes, e.the_row.coded) };

    ghost view = { λ c. c.members };

    ghost invariant = { λ c. IsClaimSet c.members × (length (canon_members c.members) ≤ MAX_CANONICAL)
        × AreNamed c.members };
}

// Whether the members are a claim set.
fn check(members: &Members) -> Result<(), ClaimFault>
    ensures set { IfOk result (λ done. IsClaimSet members.now) }
    ensures fault { IfErr result (λ fault. fault_in members.now ≡ Some fault) }
{
    match fault_in(members) {
        Some(fault) => Err(fault),
        None => Ok(()),
    }
}

// The members that a payload spells, which are a claim set.
#[tactic(auto, using(crate::proofs::Rows::refuses))]
fn members_in(alloc: Global, payload: &[u8]) -> Result<Members, ClaimFault>
    ensures short { IfOk result (λ members. length payload.now ≤ MAX_PAYLOAD) }
    ensures read { IfOk result (λ members. IsReading payload.now members) }
    ensures set { IfOk result (λ members. IsClaimSet members) }
    ensures refused { IfErr result (λ fault. RefusesClaims fault payload.now) }
{
    if payload.len() > MAX_PAYLOAD {
        return Err(ClaimFault::TooLong);
    }
    let members = read_members(alloc, payload)?;
    check(&members)?;
    Ok(members)
}

/// Reads the claim set that a payload spells (RFC 7519 section 7.2, RFC 9246 section 2.1).
#[tactic(auto, using(crate::proofs::Shorter::no_longer, crate::proofs::Named::keeps, crate::proofs::Named::named))]
pub fn read_claims(alloc: Global, payload: &[u8]) -> Result<Claims, ClaimFault>
    ensures short { IfOk result (λ claims. length payload.now ≤ MAX_PAYLOAD) }
    ensures read { IfOk result (λ claims. IsReading payload.now claims) }
    ensures set { IfOk result (λ claims. IsClaimSet claims) }
    ensures keeps { IfOk result (λ claims. KeepsLimits claims) }
    ensures no_longer { IfOk result (λ claims. length (canon_members claims) ≤ length payload.now) }
    ensures refused { IfErr result (λ fault. RefusesClaims fault payload.now) }
{
    let members = members_in(alloc, payload)?;
    Ok(Claims { members })
}

/// The canonical text of the claims: no white space, numbers as they were spelled, and in texts only
/// what must be escaped (RFC 8259 section 7).
pub fn text(alloc: Global, claims: &Claims) -> Result<Vec<u8>, NoMemory>
    ensures canonical { IfOk result (λ text. text.items ≡ canon_members claims.now) }
    ensures bound { IfOk result (λ text. length text.items ≤ MAX_CANONICAL) }
    ensures reads_back { IfOk result (λ text.
        KeepsLimits claims.now → IsReading text.items claims.now) }
{
    Ok(write_members(alloc, &claims.members)?)
}

impl Claims {
    /// The claims as members, in their order.
    pub fn members(&self) -> &Members
        ensures value { result.now ≡ self.now }
        ensures bound { length (canon_members self.now) ≤ MAX_CANONICAL }
        ensures named { AreNamed self.now }
        ensures set { IsClaimSet self.now }
    {
        &self.members
    }

    /// These claims with that value for one of them: a claim that is there keeps its place, and another goes last.
    /// A claim that goes last takes memory, and one that is there takes none. Where there is no memory, the claims come
    /// back as they were, and the value is dropped.
    #[tactic(auto, using(crate::proofs::Lengths::grows, crate::proofs::Named::still_kept))]
    pub fn with(
        self,
        alloc: Global,
        name: ClaimName,
        value: Json,
    ) -> Result<Claims, (Claims, NoMemory)>
        requires set { IsClaimSet (with_claim name value self) }
        requires short { length (canon_members (with_claim name value self)) ≤ MAX_CANONICAL }
        ensures changed { IfOk result (λ claims. claims ≡ with_claim name value self) }
        ensures growth { IfOk result (λ claims. length (canon_members claims)
            ≤ length (canon_members self) + length (name_of name) + 4 + length (canon value)) }
        ensures keeps { IfOk result (λ claims. KeepsLimits self → Keeps given given.levels value
            → length (entries claims) ≤ MAX_MEMBERS → KeepsLimits claims) }
        ensures unchanged { IfErr result (λ refused. refused.0 ≡ self) }
        ensures memory { IfErr result (λ refused. claim (name_of name) self ≡ None) }
    {
        let Claims { members } = self;
        let mut members = members;
        match change(alloc, &mut members, name, value) {
            Ok(()) => Ok(Claims { members }),
            Err(_) => Err((Claims { members }, NoMemory)),
        }
    }

    /// Other claims that are the same.
    pub fn copy(&self, alloc: Global) -> Result<Claims, NoMemory>
        ensures { IfOk result (λ copied. copied ≡ self.now) }
    {
        Ok(Claims {
            members: self.members.copy(alloc)?,
        })
    }

    /// The value of the claim of that name.
    pub fn value(&self, name: &[u8]) -> Option<&Json>
        ensures { option_copied result ≡ claim name.now self.now }
    {
        self.members.find(name)
    }

    /// `iss`, who signed (RFC 7519 section 4.1.1).
    #[tactic(auto, using(crate::proofs::Rows::iss_fits))]
    pub fn iss(&self) -> Option<&[u8]>
        ensures value { option_copied result ≡ text_claim (codes "iss") self.now }
        ensures there { is_some result ≡ is_some (claim (codes "iss") self.now) }
    {
        text_claim(&self.members, ClaimName::Iss)
    }

    /// `jti`, a nonce (RFC 7519 section 4.1.7).
    #[tactic(auto, using(crate::proofs::Rows::jti_fits))]
    pub fn jti(&self) -> Option<&[u8]>
        ensures value { option_copied result ≡ text_claim (codes "jti") self.now }
        ensures there { is_some result ≡ is_some (claim (codes "jti") self.now) }
    {
        text_claim(&self.members, ClaimName::Jti)
    }

    /// `cdnicrit`, the names of the claims that must be understood (RFC 9246 section 2.1.9).
    #[tactic(auto, using(crate::proofs::Rows::crit_fits))]
    pub fn crit(&self) -> Option<&[u8]>
        ensures value { option_copied result ≡ text_claim (codes "cdnicrit") self.now }
        ensures there { is_some result ≡ is_some (claim (codes "cdnicrit") self.now) }
    {
        text_claim(&self.members, ClaimName::Crit)
    }

    /// `cdniuc`, the container of the URI (RFC 9246 section 2.1.11).
    #[tactic(auto, using(crate::proofs::Rows::uc_fits, crate::proofs::Rows::uc_contained))]
    pub fn uc(&self) -> &[u8]
        ensures { text_claim (codes "cdniuc") self.now ≡ Some result.now }
    {
        text_claim(&self.members, ClaimName::Uc).unwrap()
    }

    /// `exp`, the second since 1970 at which the claims expire (RFC 7519 section 4.1.4).
    #[tactic(auto, using(crate::proofs::Rows::exp_fits))]
    pub fn exp(&self) -> Option<u64>
        ensures value { result ≡ number_claim (codes "exp") self.now }
        ensures there { is_some result ≡ is_some (claim (codes "exp") self.now) }
    {
        number_claim(&self.members, ClaimName::Exp)
    }

    /// `nbf`, the second since 1970 before which they are not yet valid (RFC 7519 section 4.1.5).
    #[tactic(auto, using(crate::proofs::Rows::nbf_fits))]
    pub fn nbf(&self) -> Option<u64>
        ensures value { result ≡ number_claim (codes "nbf") self.now }
        ensures there { is_some result ≡ is_some (claim (codes "nbf") self.now) }
    {
        number_claim(&self.members, ClaimName::Nbf)
    }

    /// `iat`, the second since 1970 at which they were signed (RFC 7519 section 4.1.6).
    #[tactic(auto, using(crate::proofs::Rows::iat_fits))]
    pub fn iat(&self) -> Option<u64>
        ensures value { result ≡ number_claim (codes "iat") self.now }
        ensures there { is_some result ≡ is_some (claim (codes "iat") self.now) }
    {
        number_claim(&self.members, ClaimName::Iat)
    }

    /// `cdniv`, the version (RFC 9246 section 2.1.8).
    #[tactic(auto, using(crate::proofs::Rows::version_fits))]
    pub fn version(&self) -> Option<u64>
        ensures value { result ≡ number_claim (codes "cdniv") self.now }
        ensures there { is_some result ≡ is_some (claim (codes "cdniv") self.now) }
    {
        number_claim(&self.members, ClaimName::Version)
    }

    /// `cdniets`, the seconds that renewed claims live (RFC 9246 section 2.1.12).
    #[tactic(auto, using(crate::proofs::Rows::ets_fits))]
    pub fn ets(&self) -> Option<u64>
        ensures value { result ≡ period_claim (codes "cdniets") self.now }
        ensures there { is_some result ≡ is_some (claim (codes "cdniets") self.now) }
    {
        period_claim(&self.members, ClaimName::Ets)
    }

    /// `cdnistt`, how a renewed token is carried (RFC 9246 section 2.1.13).
    #[tactic(auto, using(crate::proofs::Rows::stt_fits))]
    pub fn stt(&self) -> Option<u64>
        ensures value { result ≡ number_claim (codes "cdnistt") self.now }
        ensures there { is_some result ≡ is_some (claim (codes "cdnistt") self.now) }
    {
        number_claim(&self.members, ClaimName::Stt)
    }

    /// `cdnistd`, how many segments the path of its cookie has (RFC 9246 section 2.1.14).
    #[tactic(auto, using(crate::proofs::Rows::std_fits))]
    pub fn std(&self) -> Option<u64>
        ensures value { result ≡ number_claim (codes "cdnistd") self.now }
        ensures there { is_some result ≡ is_some (claim (codes "cdnistd") self.now) }
    {
        number_claim(&self.members, ClaimName::Std)
    }

    /// Whether `aud` is that identity, or a list that has it. None where there is no `aud` (RFC 7519 section 4.1.3).
    pub fn aud_has(&self, identity: &[u8]) -> Option<bool>
        ensures { result ≡ option_map (is_audience identity.now) (claim (codes "aud") self.now) }
    {
        Some(is_audience(self.members.find(b"aud")?, identity))
    }

    /// Whether `sub` or `cdniip` is a claim: both are encrypted (RFC 9246 sections 2.1.2 and 2.1.10).
    pub fn has_encrypted(&self) -> bool
        ensures { result ≡ (is_some (claim (codes "sub") self.now)
            || is_some (claim (codes "cdniip") self.now)) }
    {
        self.members.find(b"sub").is_some() || self.members.find(b"cdniip").is_some()
    }

    /// How many bytes the canonical text has.
    pub fn text_len(&self) -> usize
        ensures value { result ≡ length (canon_members self.now) }
        ensures bound { result ≤ MAX_CANONICAL }
        ensures named { AreNamed self.now }
        ensures set { IsClaimSet self.now }
    {
        canonical_len(&self.members)
    }
}
