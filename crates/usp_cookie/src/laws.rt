//! Laws of the cookie's path, and of the jar.

ghost use Rattle.std.specs.Prelude.{◌≡◌, ◌==◌, ◌<◌, ◌≤◌, ℕ, List, true, filter, length, slice_index_or};
ghost use Rattle.usp_cookie.specs.Cookies.{MayKeep, kept_segments};
ghost use Rattle.usp_cookie.specs.Jars.{covers, is_sent, sent, stored};
ghost use Rattle.usp_cookie.specs.declared.cookie.Cookie.{Cookie};
ghost use Rattle.usp_cookie.specs.declared.limits.TheConstants.{MAX_COOKIES};

/// The segments that are kept may be kept, where there is one at all, and no more of them may.
pub fn keeps_the_most_segments()
    ensures may { (depth : ℕ) (segments : List (List ℕ)) → 1 ≤ length segments
        → MayKeep depth segments (kept_segments depth segments) }
    ensures most { (depth : ℕ) (segments kept : List (List ℕ)) → MayKeep depth segments kept
        → length kept ≤ length (kept_segments depth segments) }
{}

/// A jar that keeps no more cookies than its limit keeps no more after a Set-Cookie value.
pub fn keeps_at_most_its_limit()
    ensures { (authority asked value : List ℕ) (jar : List Cookie) → length jar ≤ MAX_COOKIES
        → length (stored authority asked value jar) ≤ MAX_COOKIES }
{}

/// A path that covers the one asked for is no longer. So the header, which takes the cookies of each such
/// length, leaves out none that goes with the request.
pub fn sends_each_that_covers()
    ensures { (own asked : List ℕ) → covers own asked ≡ true → length own ≤ length asked }
{}

/// Of the cookies that go with a request, no longer path stands behind a shorter one. Those whose paths have
/// so many bytes are the cookies of the jar that go with it and have such a path, in the order of the jar.
pub fn gives_longer_paths_first()
    ensures falling { (authority asked : List ℕ) (jar : List Cookie) (i j : ℕ) (other : Cookie)
        → i < j → j < length (sent authority asked jar)
        → length (slice_index_or (sent authority asked jar) j other).path
        ≤ length (slice_index_or (sent authority asked jar) i other).path }
    ensures in_order { (authority asked : List ℕ) (jar : List Cookie) (size : ℕ)
        → filter (λ cookie. length cookie.path == size) (sent authority asked jar)
        ≡ filter (λ cookie. length cookie.path == size) (filter (is_sent authority asked) jar) }
{}
