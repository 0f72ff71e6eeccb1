//! Finding the package of a URI.

ghost use Rattle.std.specs.Prelude.{◌≡◌, ◌+◌, ◌≤◌, length};
ghost use Rattle.usp_package.specs.Package.{Package, package_of, package_at, Finds};
ghost use Rattle.usp_package.specs.Found.{shown};

use crate::name::AttrName;
use crate::places::{bounds_of, cut_run, first_place};
use usp_uri::{is_gen_delim, is_sub_delim};

/// What `find` answers.
#[derive(Clone, Copy, Debug)]
pub enum Found<'a> {
    /// There is no package: the content is the text itself.
    None,
    /// The byte at this offset may not follow a token.
    Bad {
        at: usize,
    },
    /// The content text is `before` followed by `after`.
    At {
        token: &'a [u8],
        before: &'a [u8],
        after: &'a [u8],
    },
}

// The package of that name at this place of a text.
fn found_at<'a>(name: &[u8], uri: &'a [u8], at: usize) -> Found<'a>
    requires { at + length name.now + 2 ≤ length uri.now }
    ensures { shown result ≡ package_at name.now uri.now at }
{
    let start = at + 1 + (name.len() + 1);
    let (front, _) = uri.split_at(at);
    let (front_and_mark, _) = uri.split_at(at + 1);
    let (_, here) = uri.split_at(start);
    let (token, rest) = cut_run(here);
    match rest {
        [] => Found::At {
            token,
            before: front,
            after: rest,
        },
        [d, after @ ..] if is_sub_delim(*d) => Found::At {
            token,
            before: front_and_mark,
            after,
        },
        [d, ..] if is_gen_delim(*d) => Found::At {
            token,
            before: front,
            after: rest,
        },
        _ => Found::Bad {
            at: start + token.len(),
        },
    }
}

// The first package of that name, by the definition that computes.
#[tactic(auto, unfolding(crate::specs::Package::package_of))]
fn find_package<'a>(name: &AttrName, uri: &'a [u8]) -> Found<'a>
    ensures { shown result ≡ package_of name.now uri.now }
{
    let Some(bounds) = bounds_of(uri) else {
        return Found::None;
    };
    let name = name.text();
    match first_place(name, &bounds, uri) {
        None => Found::None,
        Some(at) => found_at(name, uri, at),
    }
}

/// The first package of that name in any bytes (RFC 9246 section 2).
///
/// A package begins after a `;` in the path, after the `?` that begins the query, or after a `&`
/// in the query.
pub fn find<'a>(name: &AttrName, uri: &'a [u8]) -> Found<'a>
    // By the definition that computes.
    ensures exact { shown result ≡ package_of name.now uri.now }
    // By the definition as a relation.
    ensures found { Finds name.now uri.now (shown result) }
    // What the relation says of the text is what is answered.
    ensures only { (other : Package) → Finds name.now uri.now other → shown result ≡ other }
{
    find_package(name, uri)
}
