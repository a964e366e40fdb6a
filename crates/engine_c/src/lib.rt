// The engine's surface for C: each function that include/parvusek.h declares, exported by its name, calls engine's and keeps its clauses.
#![tactic(auto)]

pub mod cells;
pub mod files;
pub mod lifelines;
pub mod points;
pub mod rolls;
pub mod values;
pub mod version;
