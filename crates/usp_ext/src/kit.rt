//! The tests as functions of the caller.

ghost use Rattle.std.specs.Prelude.{◌≡◌, ◌<◌};
ghost use Rattle.usp_base.specs.declared.limits.TheConstants.{MOMENT_BOUND};
ghost use Rattle.usp_ext.specs.Tests.{means};
ghost use Rattle.usp_ext.specs.declared.kinds.TestKind.{TestKind};

use crate::{Setting, TestKind};
use usp_json::Json;

/// A test of a claim's value under a setting, for the content of a path at a moment, in seconds since 1970.
pub type TestFn = fn(&Setting, &Json, &[u8], u64) -> bool;

/// A test for each kind. Each may be called at every moment below `MOMENT_BOUND`, and answers what its kind means.
#[derive(Clone, Copy)]
pub struct Kit {
    any: TestFn,
    equals: TestFn,
    one_of: TestFn,
    at_most: TestFn,
    path_prefix: TestFn,
    ghost any_runs: { (s v p m : _) → m < MOMENT_BOUND → TestFn.pre any s v p m },
    ghost any_means: { (s v p m r : _) → TestFn.post any s v p m r
        → r ≡ means TestKind.Any s.now v.now p.now },
    ghost equals_runs: { (s v p m : _) → m < MOMENT_BOUND → TestFn.pre equals s v p m },
    ghost equals_means: { (s v p m r : _) → TestFn.post equals s v p m r
        → r ≡ means TestKind.Equals s.now v.now p.now },
    ghost one_of_runs: { (s v p m : _) → m < MOMENT_BOUND → TestFn.pre one_of s v p m },
    ghost one_of_means: { (s v p m r : _) → TestFn.post one_of s v p m r
        → r ≡ means TestKind.OneOf s.now v.now p.now },
    ghost at_most_runs: { (s v p m : _) → m < MOMENT_BOUND → TestFn.pre at_most s v p m },
    ghost at_most_means: { (s v p m r : _) → TestFn.post at_most s v p m r
        → r ≡ means TestKind.AtMost s.now v.now p.now },
    ghost path_prefix_runs: { (s v p m : _) → m < MOMENT_BOUND → TestFn.pre path_prefix s v p m },
    ghost path_prefix_means: { (s v p m r : _) → TestFn.post path_prefix s v p m r
        → r ≡ means TestKind.PathPrefix s.now v.now p.now },
}

impl Kit {
    /// The kit of these tests. It is made where the functions are: `Kit::new(is_any, equals, is_one_of,
    /// is_at_most, is_path_prefix)` takes the plain ones of this library.
    pub fn new(
        any: TestFn,
        equals: TestFn,
        one_of: TestFn,
        at_most: TestFn,
        path_prefix: TestFn,
    ) -> Kit
        requires any_runs { (s v p m : _) → m < MOMENT_BOUND → TestFn.pre any s v p m }
        requires any_means { (s v p m r : _) → TestFn.post any s v p m r
            → r ≡ means TestKind.Any s.now v.now p.now }
        requires equals_runs { (s v p m : _) → m < MOMENT_BOUND → TestFn.pre equals s v p m }
        requires equals_means { (s v p m r : _) → TestFn.post equals s v p m r
            → r ≡ means TestKind.Equals s.now v.now p.now }
        requires one_of_runs { (s v p m : _) → m < MOMENT_BOUND → TestFn.pre one_of s v p m }
        requires one_of_means { (s v p m r : _) → TestFn.post one_of s v p m r
            → r ≡ means TestKind.OneOf s.now v.now p.now }
        requires at_most_runs { (s v p m : _) → m < MOMENT_BOUND → TestFn.pre at_most s v p m }
        requires at_most_means { (s v p m r : _) → TestFn.post at_most s v p m r
            → r ≡ means TestKind.AtMost s.now v.now p.now }
        requires path_prefix_runs { (s v p m : _) → m < MOMENT_BOUND
            → TestFn.pre path_prefix s v p m }
        requires path_prefix_means { (s v p m r : _) → TestFn.post path_prefix s v p m r
            → r ≡ means TestKind.PathPrefix s.now v.now p.now }
    {
        Kit {
            any,
            equals,
            one_of,
            at_most,
            path_prefix,
        }
    }

    // What the stored test of that kind answers.
    pub(crate) fn answer(
        &self,
        kind: TestKind,
        setting: &Setting,
        value: &Json,
        path: &[u8],
        moment: u64,
    ) -> bool
        requires { moment < MOMENT_BOUND }
        ensures { result ≡ means kind setting.now value.now path.now }
    {
        match kind {
            TestKind::Any => (self.any)(setting, value, path, moment),
            TestKind::Equals => (self.equals)(setting, value, path, moment),
            TestKind::OneOf => (self.one_of)(setting, value, path, moment),
            TestKind::AtMost => (self.at_most)(setting, value, path, moment),
            TestKind::PathPrefix => (self.path_prefix)(setting, value, path, moment),
        }
    }
}
