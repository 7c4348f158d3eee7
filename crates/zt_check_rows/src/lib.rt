//! The rows of one gateway that a claimed transcript shows, and what accepted calls change of them.
//! What a call says isn't asked; what its messages change, its faces hear.
//!
//! It stands on the definitions, and shares no code with the gateway that it judges. Rows stand in
//! plain lists, in the order of the definitions. After an error nothing is said of the rows: they
//! are to be dropped.
#![tactic(auto)]

mod calls;
mod numbers;
mod opening;
mod order;
mod routed;
mod routers;
mod routes;
mod rows;
mod tables;

pub use numbers::add_numbers;
pub use order::{compare_regions, goes_by_trees};
pub use routed::ShownRouted;
pub use routers::RoutedRows;
pub use rows::ShownRows;
pub use zt_check_open_faces::{FaceTest, TokenTest, admits, is_owed, is_shown_and_admitted, sees};
pub use zt_check_tables::ShownTable;
