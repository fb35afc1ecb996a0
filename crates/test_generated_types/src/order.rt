//! Orders of a shop.

mod shown;

/// What someone ordered.
#[derive(Drop)]
pub struct Order {
    pub number: u64,
    pub name: String,
    pub marks: Vec<u32>,
}
