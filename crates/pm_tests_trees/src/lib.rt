//! Tests of trees and of partitions, beside maps and on pages with a turned byte.
#![tactic(auto)]

#[cfg(test)]
mod parts;
#[cfg(test)]
mod trees;
#[cfg(test)]
mod turned;
