//! A shelf over a database.
#![tactic(auto)]

mod asks;
mod database;
mod lists;
mod moves;
mod notes;
mod profile;
mod rows;
mod tables;

pub use database::SqlShelf;
