//! Tables, rows and the map of all rows.
#![tactic(auto)]

pub mod map;
pub mod name;
pub mod row;
pub mod schema;
