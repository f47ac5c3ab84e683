//! Tests of pages: those of each kind byte by byte, free lists, deltas, and partitions that are written by hand.
#![tactic(auto)]

#[cfg(test)]
mod data_pages;
#[cfg(test)]
mod deltas;
#[cfg(test)]
mod free_lists;
#[cfg(test)]
mod index_pages;
#[cfg(test)]
mod looks;
#[cfg(test)]
mod meta_pages;
#[cfg(test)]
mod partitions;
