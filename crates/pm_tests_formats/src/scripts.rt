//! Scripts: lines, the texts of replies, and both together.

mod answers;
mod lines;
mod replies;
