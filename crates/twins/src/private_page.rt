//! A private page of a view, with its number.
use paged_memory::Page;

/// A page that was stored to: its number, and what it is now. The base's page of that number is its twin.
#[derive(Drop)]
pub struct PrivatePage {
    /// The page's number.
    pub number: u32,
    /// What the page permits, and its bytes.
    pub page: Box<Page>,
}
