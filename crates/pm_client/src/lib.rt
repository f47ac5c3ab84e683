//! A store inside a program, over any host: opened, asked for a put, and closed. `docs/EMBEDDING.md` goes through it.
#![tactic(auto)]

mod opening;
mod putting;
#[cfg(test)]
mod tests;
mod whole;

pub use opening::open;
pub use putting::put;
pub use whole::put_once;
