//! The small lists of the trade, each over a vector and seen by contracts as a list.

mod codes;
mod epcs;
mod ids;
mod moves;
mod notes;
mod products;
mod rows;
mod stations;

pub use codes::Codes;
pub use epcs::Epcs;
pub use ids::Ids;
pub use moves::Moves;
pub use notes::Notes;
pub use products::Products;
pub use rows::Rows;
pub use stations::Stations;
