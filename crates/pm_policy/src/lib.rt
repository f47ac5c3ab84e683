//! Page replacement as the store asks for it: objects that the caller hands in, in boxes. Not used by the
//! program yet.
#![tactic(auto)]

mod policy;
mod replacer;

pub use policy::{Policy, Racks};
pub use replacer::Replacer;
