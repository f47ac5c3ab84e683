//! Partitions whose pages are written by hand or made by their calls.

mod grown;
mod made;
mod stored;
