//! Laws of ledgers. Each is a theorem for the crates above.

ghost use Rattle.std.specs.Prelude.{◌≡◌, ◌≢◌, ◌+◌, ◌<◌, List, Option, ℕ, [], ◌∷◌, ◌++◌, Some, codes, length, slice_get, true};
ghost use Rattle.std.specs.Option.{is_some};
ghost use Rattle.usp_claims.specs.Table.{claim, text_claim};
ghost use Rattle.usp_issue.specs.Sites.{SiteValue};
ghost use Rattle.usp_json.specs.declared.value.Members.{Members};
ghost use Rattle.usp_rules.specs.Constraints.{IsContained, is_begun, is_for, is_unexpired};
ghost use Rattle.usp_rules.specs.Rules.{Valid};
ghost use Rattle.usp_rules.specs.Tokens.{CarriesClaims};
ghost use Rattle.usp_trace.specs.Chains.{Chain, IsChain, IsIssued, IsOrdered, first_place, token_at};
ghost use Rattle.usp_trace.specs.Descent.{Descends};
ghost use Rattle.usp_trace.specs.Grants.{GrantMet, Origin};
ghost use Rattle.usp_trace.specs.Issues.{Use, parent_of};
ghost use Rattle.usp_trace.specs.Laws.{AreRenewedAt, AreSentBy, HasAudienceOfRoute, IsDirect, IsUnrenewed, IsUseBehind, IsWithinPeriod, WasRenewed, WasResigned, WasUsed};
ghost use Rattle.usp_trace.specs.Sound.{IsDue, Sound, presented_by};
ghost use Rattle.usp_trace.specs.declared.issue.Issue.{Issue};
ghost use Rattle.usp_trace.specs.declared.issue.Issue.TheVariants.{Grant, Renewed, Resigned};

/// The first place of a token is there exactly where the token was issued, has it, and no smaller place has it.
pub fn finds_the_least_place()
    ensures some { (ledger : List Issue) (token : List ℕ) → IsIssued ledger token
        → (place : ℕ) × (first_place token ledger ≡ Some place) }
    ensures has { (ledger : List Issue) (token : List ℕ) (place : ℕ)
        → first_place token ledger ≡ Some place → token_at ledger place ≡ Some token }
    ensures least { (ledger : List Issue) (token : List ℕ) (place earlier : ℕ)
        → first_place token ledger ≡ Some place → earlier < place
        → token_at ledger earlier ≡ Some token → ⊥ }
{}

/// Each place of a ledger has one chain, which begins with a grant.
pub fn has_one_chain()
    ensures some { (ledger : List Issue) (place : ℕ) → IsOrdered ledger → place < length ledger
        → (places : List ℕ) × IsChain ledger place places }
    ensures one { (ledger : List Issue) (place : ℕ) (places others token grant : List ℕ)
        (links behind : List Issue) → Chain ledger place places token links
        → Chain ledger place others grant behind
        → (places ≡ others) × (token ≡ grant) × (links ≡ behind) }
    ensures grant { (ledger : List Issue) (place : ℕ) (places : List ℕ)
        → IsChain ledger place places → (first : ℕ) × (token : List ℕ)
        × (slice_get places 0 ≡ Some first) × (slice_get ledger first ≡ Some (Grant token)) }
{}

/// A chain has one place more than links, and ends at its own place. Link n, counted from 0, is the issue at place
/// n + 1 of the chain, and its parent is place n of the chain.
pub fn names_each_link()
    ensures long { (ledger : List Issue) (place : ℕ) (places token : List ℕ) (links : List Issue)
        → Chain ledger place places token links → length places ≡ length links + 1 }
    ensures last { (ledger : List Issue) (place : ℕ) (places token : List ℕ) (links : List Issue)
        → Chain ledger place places token links → slice_get places (length links) ≡ Some place }
    ensures link { (ledger : List Issue) (place : ℕ) (places token : List ℕ) (links : List Issue)
        (number : ℕ) (link : Issue) → Chain ledger place places token links
        → slice_get links number ≡ Some link → (at : ℕ)
        × (slice_get places (number + 1) ≡ Some at) × (slice_get ledger at ≡ Some link) }
    ensures parent { (ledger : List Issue) (place : ℕ) (places token : List ℕ) (links : List Issue)
        (number : ℕ) (link : Issue) → Chain ledger place places token links
        → slice_get links number ≡ Some link → (parent : ℕ)
        × (slice_get places number ≡ Some parent) × (parent_of link ≡ Some parent) }
{}

/// A use has one origin.
pub fn has_one_origin()
    ensures { (ledger : List Issue) (place : ℕ) (uri a b : List ℕ)
        → Origin ledger place uri a → Origin ledger place uri b → a ≡ b }
{}

/// Where a use comes from, one link back: at a grant from the URI itself; at a renewal, and at a redirection whose
/// container text is its parent's, from the same URI at the parent; at each other redirection from the URI that it
/// names.
pub fn follows_the_links()
    ensures granted { (ledger : List Issue) (place : ℕ) (uri origin token : List ℕ)
        → slice_get ledger place ≡ Some (Grant token) → Origin ledger place uri origin
        → origin ≡ uri }
    ensures renewed { (ledger : List Issue) (place parent edge moment : ℕ)
        (uri origin named token : List ℕ)
        → slice_get ledger place ≡ Some (Renewed parent edge named moment token)
        → Origin ledger place uri origin → Origin ledger parent uri origin }
    ensures kept { (ledger : List Issue) (place parent edge moment route : ℕ)
        (uri origin named token used : List ℕ) (before after : Members)
        → slice_get ledger place ≡ Some (Resigned parent edge named moment route token)
        → token_at ledger parent ≡ Some used → CarriesClaims used before
        → CarriesClaims token after
        → text_claim (codes "cdniuc") before ≡ text_claim (codes "cdniuc") after
        → Origin ledger place uri origin → Origin ledger parent uri origin }
    ensures narrowed { (ledger : List Issue) (place parent edge moment route : ℕ)
        (uri origin named token used : List ℕ) (before after : Members)
        → slice_get ledger place ≡ Some (Resigned parent edge named moment route token)
        → token_at ledger parent ≡ Some used → CarriesClaims used before
        → CarriesClaims token after
        → text_claim (codes "cdniuc") before ≢ text_claim (codes "cdniuc") after
        → Origin ledger place uri origin → Origin ledger parent named origin }
{}

/// A sound ledger stays sound with one more issue that is what it must be at the next place.
pub fn stays_sound()
    ensures { (ledger : List Issue) (sites : List SiteValue) (issue : Issue) → Sound ledger sites
        → IsDue sites ledger (length ledger) issue → Sound (ledger ++ issue ∷ []) sites }
{}

/// What soundness says of each issue that is no grant: where it comes from, and what it is of its parent.
pub fn says_what_is_sound()
    ensures used_to_renew { (ledger : List Issue) (sites : List SiteValue) (place parent : ℕ)
        (asked : Use) (token : List ℕ) → Sound ledger sites → slice_get ledger place
        ≡ Some (Renewed parent asked.edge asked.uri asked.moment token)
        → WasUsed sites ledger place parent asked }
    ensures used_to_send { (ledger : List Issue) (sites : List SiteValue) (place parent : ℕ)
        (asked : Use) (route : ℕ) (token : List ℕ) → Sound ledger sites → slice_get ledger place
        ≡ Some (Resigned parent asked.edge asked.uri asked.moment route token)
        → WasUsed sites ledger place parent asked }
    ensures renewed { (ledger : List Issue) (sites : List SiteValue) (place parent edge : ℕ)
        (uri : List ℕ) (moment : ℕ) (token : List ℕ) → Sound ledger sites
        → slice_get ledger place ≡ Some (Renewed parent edge uri moment token)
        → WasRenewed sites ledger parent edge uri moment token }
    ensures resigned { (ledger : List Issue) (sites : List SiteValue) (place parent edge : ℕ)
        (uri : List ℕ) (moment route : ℕ) (token : List ℕ) → Sound ledger sites
        → slice_get ledger place ≡ Some (Resigned parent edge uri moment route token)
        → WasResigned sites ledger parent edge uri moment route token }
{}

/// The claims of a token of a sound ledger are those of its grant, but for what the links between them changed: they
/// meet no more than the grant meets, and each use along the links met the grant.
pub fn hands_on_the_grant()
    ensures { (ledger : List Issue) (sites : List SiteValue) (place : ℕ) (places token : List ℕ)
        (links : List Issue) (presented : List ℕ) (members : Members) → Sound ledger sites
        → Chain ledger place places token links → token_at ledger place ≡ Some presented
        → CarriesClaims presented members → Descends sites ledger place token links members }
{}

/// Where a token of a sound ledger is valid at an edge for a URI at a moment, this use met the grant from which the
/// token comes.
pub fn meets_its_grant()
    ensures { (ledger : List Issue) (sites : List SiteValue) (site : SiteValue) (place : ℕ)
        (token : List ℕ) (asked : Use) → Sound ledger sites → token_at ledger place ≡ Some token
        → slice_get sites asked.edge ≡ Some site → Valid site.profile (presented_by asked token)
        → GrantMet ledger sites place asked }
{}

/// A use that met its grant in a ledger meets it in each longer one.
pub fn stays_met()
    ensures { (ledger more : List Issue) (sites : List SiteValue) (place : ℕ) (asked : Use)
        → GrantMet ledger sites place asked → GrantMet (ledger ++ more) sites place asked }
{}

/// What a use that met its grant says of the one chain of its place: the grant's container meets the origin; the
/// grant's audience admits the edge of each use up to the first redirection, and the edge of each later one has the
/// audience of the last redirection before it; each use is at or after the grant's `nbf`; up to the first renewal it is
/// before the grant's `exp`, and later within the grant's `cdniets` of the last renewal before it.
pub fn says_what_is_met()
    ensures container { (ledger : List Issue) (sites : List SiteValue) (place : ℕ) (asked : Use)
        (places token origin : List ℕ) (links : List Issue) (grant : Members)
        → GrantMet ledger sites place asked → Chain ledger place places token links
        → CarriesClaims token grant → Origin ledger place asked.uri origin
        → IsContained (Some origin) grant }
    ensures direct { (ledger : List Issue) (sites : List SiteValue) (place : ℕ) (asked used : Use)
        (places token : List ℕ) (links before : List Issue) (grant : Members)
        → GrantMet ledger sites place asked → Chain ledger place places token links
        → CarriesClaims token grant → IsUseBehind links asked before used → IsDirect before
        → (site : SiteValue) × (slice_get sites used.edge ≡ Some site)
        × (is_for site.profile.audience grant ≡ true) }
    ensures sent { (ledger : List Issue) (sites : List SiteValue) (place : ℕ) (asked used : Use)
        (places token : List ℕ) (links before : List Issue) (grant : Members) (edge route : ℕ)
        → GrantMet ledger sites place asked → Chain ledger place places token links
        → CarriesClaims token grant → IsUseBehind links asked before used → AreSentBy edge route before
        → is_some (claim (codes "aud") grant) ≡ true
        → (site : SiteValue) × (slice_get sites used.edge ≡ Some site)
        × HasAudienceOfRoute sites edge route site }
    ensures begun { (ledger : List Issue) (sites : List SiteValue) (place : ℕ) (asked used : Use)
        (places token : List ℕ) (links before : List Issue) (grant : Members)
        → GrantMet ledger sites place asked → Chain ledger place places token links
        → CarriesClaims token grant → IsUseBehind links asked before used
        → is_begun used.moment grant ≡ true }
    ensures unexpired { (ledger : List Issue) (sites : List SiteValue) (place : ℕ) (asked used : Use)
        (places token : List ℕ) (links before : List Issue) (grant : Members)
        → GrantMet ledger sites place asked → Chain ledger place places token links
        → CarriesClaims token grant → IsUseBehind links asked before used → IsUnrenewed before
        → is_unexpired used.moment grant ≡ true }
    ensures renewed { (ledger : List Issue) (sites : List SiteValue) (place : ℕ) (asked used : Use)
        (places token : List ℕ) (links before : List Issue) (grant : Members) (start : ℕ)
        → GrantMet ledger sites place asked → Chain ledger place places token links
        → CarriesClaims token grant → IsUseBehind links asked before used → AreRenewedAt start before
        → IsWithinPeriod grant start used.moment }
    ensures there { (ledger : List Issue) (sites : List SiteValue) (place : ℕ) (asked : Use)
        → GrantMet ledger sites place asked → (places : List ℕ) × (token : List ℕ)
        × (links : List Issue) × (grant : Members) × (origin : List ℕ)
        × Chain ledger place places token links × CarriesClaims token grant
        × Origin ledger place asked.uri origin }
{}
