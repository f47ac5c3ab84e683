//! Commands on a partition.

mod commands;
mod damage;
mod filling;
mod maps;
