//! Laws of the definitions, each the contract of a function that does nothing.

ghost use Rattle.std.specs.Prelude.{◌≡◌, ◌≤◌, ◌∷◌, ◌++◌, ℕ, List, [], Some, None, Ok, length, true};
ghost use Rattle.std.specs.List.{list_all};
ghost use Rattle.std.specs.Str.{byte};
ghost use Rattle.usp_uri.specs.Components.{query_in};
ghost use Rattle.usp_uri.specs.declared.limits.TheConstants.{MAX_LEN};
ghost use Rattle.usp_uri.specs.DotSegments.{is_at_slash, RemovesDots};
ghost use Rattle.usp_uri.specs.Faults.{normal_of};
ghost use Rattle.usp_uri.specs.Letters.{is_literal};
ghost use Rattle.usp_uri.specs.Normal.{remove_dot_segments};

/// The normal form removes the dot segments of a path as the steps of RFC 3986 section 5.2.4 do.
pub fn removes_dot_segments_by_the_standard()
    ensures { (path : List ℕ) → is_at_slash path ≡ true → RemovesDots path [] (remove_dot_segments path) }
{}

/// The steps of RFC 3986 section 5.2.4 lead from a path to one result only.
pub fn dot_segments_are_removed_in_one_way()
    ensures { (path one other : List ℕ) → is_at_slash path ≡ true
        → RemovesDots path [] one → RemovesDots path [] other → one ≡ other }
{}

/// A normal form is one still where a query begins behind it, or its query grows, by bytes that
/// stand for themselves in a query.
pub fn a_longer_query_stays_normal()
    ensures begins { (text more : List ℕ) → normal_of text ≡ Ok text → query_in text ≡ None
        → list_all is_literal more ≡ true → length (text ++ (byte "?" ∷ more)) ≤ MAX_LEN
        → normal_of (text ++ (byte "?" ∷ more)) ≡ Ok (text ++ (byte "?" ∷ more)) }
    ensures grows { (text query more : List ℕ) → normal_of text ≡ Ok text → query_in text ≡ Some query
        → list_all is_literal more ≡ true → length (text ++ more) ≤ MAX_LEN
        → normal_of (text ++ more) ≡ Ok (text ++ more) }
{}
