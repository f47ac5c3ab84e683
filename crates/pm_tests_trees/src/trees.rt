//! The tree of a cache: puts, look-ups and removals.

mod calls;
mod damage;
mod keys;
mod maps;
mod pages;
mod puts;
mod removals;
