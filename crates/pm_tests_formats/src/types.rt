//! Values that every part of the store speaks of.

mod fields;
mod keys;
mod page_ids;
mod patches;
mod places;
