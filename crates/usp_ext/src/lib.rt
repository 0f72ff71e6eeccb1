//! Tests of extension claims (RFC 9246 section 2.1.9), kept as the caller's functions.
//!
//! ```rust
//! let mut extensions = Extensions::empty(alloc);
//! extensions.push(Text::of(alloc, "tier")?, TestKind::AtMost, Setting::Number(2))?;
//! let kit = Kit::new(is_any, equals, is_one_of, is_at_most, is_path_prefix);
//! let facts = Facts { path: b"/v", moment: 1500 };
//! assert_eq!(rt; extensions.holds(&kit, b"tier", &Json::Null, &facts), Some(false));
//! assert_eq!(rt; extensions.holds(&kit, b"other", &Json::Null, &facts), None);
//! ```
#![tactic(auto)]

mod checks;
mod extensions;
mod kinds;
mod kit;
#[cfg(test)]
mod tests;

pub use checks::{equals, is_any, is_at_most, is_one_of, is_path_prefix};
pub use extensions::{ExtFault, Extensions, Facts};
pub use kinds::{Extension, Setting, TestKind};
pub use kit::{Kit, TestFn};
