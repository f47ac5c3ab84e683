//! Tests of formats and texts: values and names, frames, records and markers, configurations, scripts, and the
//! tools that look into a store.
#![tactic(auto)]

#[cfg(test)]
mod configs;
#[cfg(test)]
mod drawn_lines;
#[cfg(test)]
mod frames;
#[cfg(test)]
mod listings;
#[cfg(test)]
mod marks;
#[cfg(test)]
mod names;
#[cfg(test)]
mod records;
#[cfg(test)]
mod scripts;
#[cfg(test)]
mod types;
