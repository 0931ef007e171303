//! Copy-on-write views of a snapshot, on which guest threads' segments run.
#![tactic(auto)]

mod near_pages;
mod page_index;
mod place_table;
mod private_page;
mod private_pages;
pub mod view;

pub use private_page::PrivatePage;
pub use view::View;
