//! The link state of router regions. A region's table is kept as it was handed in, with look-ups of
//! the entries that count; it stands for Zenoh's link-state tree tables. Beside it are the tokens
//! of the region's routers, in order: by region, by the router that declares them, by expression. A
//! token is put in its place, taken away or looked up without going through the others.
#![tactic(auto)]

mod counting;
mod kept;
mod listed;
mod lookups;
mod origin;
mod sources;
mod tokens;

pub use counting::{CountedLinks, CountedRouters, counted_links, counted_routers};
pub use kept::KeptTable;
pub use listed::is_listed;
pub use lookups::is_child_among;
pub use origin::{Origin, is_left_out};
pub use tokens::RoutedTokens;
