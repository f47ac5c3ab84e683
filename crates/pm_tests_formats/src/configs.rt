//! Configurations: what texts say, which are refused, and the schema for editors.

mod refusals;
mod schema;
mod values;
