//! Page locks.

mod churn;
mod takes;
