//! The documents of the service.
use allocative::{Allocative, Described, IdRc};
use std::alloc::{AllocError, Global};

mod shown;

/// A note of a tenant.
#[derive(Drop)]
pub struct Note {
    pub tenant: String,
    pub key: u64,
    pub text: String,
}

/// An order of a tenant: places of the catalogue, which the service and all orders share.
#[derive(Drop)]
pub struct Order {
    pub tenant: String,
    pub key: u64,
    pub catalogue: IdRc<Vec<String>>,
    pub items: Vec<usize>,
}

/// What the service holds: a catalogue of items, and the documents of its tenants.
#[derive(Drop)]
pub struct Held {
    pub catalogue: IdRc<Vec<String>>,
    pub notes: Vec<Note>,
    pub orders: Vec<Order>,
}

/// A document of the service.
pub trait Document: Allocative + Described + Drop {
    /// Puts the document among those that the service holds. The only error is that memory runs out.
    fn keep(self, held: &mut Held) -> Result<(), AllocError>;
}

impl Document for Note {
    fn keep(self, held: &mut Held) -> Result<(), AllocError> {
        held.notes.push(self)?;
        Ok(())
    }
}

impl Document for Order {
    fn keep(self, held: &mut Held) -> Result<(), AllocError> {
        held.orders.push(self)?;
        Ok(())
    }
}

impl Note {
    /// A note with copies of the name and of the text.
    pub fn new(alloc: Global, tenant: &str, key: u64, text: &str) -> Result<Note, AllocError> {
        Ok(Note {
            tenant: String::from_str(alloc, tenant)?,
            key,
            text: String::from_str(alloc, text)?,
        })
    }

    /// The text under the key.
    pub fn page(&self, alloc: Global) -> Result<String, AllocError> {
        format!(in alloc; "{}: {}", self.key, self.text)
    }
}

impl Order {
    /// An order of the items at these places of the catalogue, with spaces between them. What is no number is left out.
    pub fn new(
        alloc: Global,
        tenant: &str,
        key: u64,
        catalogue: &IdRc<Vec<String>>,
        places: &str,
    ) -> Result<Order, AllocError> {
        let mut items = Vec::new(alloc);
        for place in places.split(' ') {
            if let Ok(item) = place.parse::<usize>() {
                items.push(item)?;
            }
        }
        Ok(Order {
            tenant: String::from_str(alloc, tenant)?,
            key,
            catalogue: catalogue.clone()?,
            items,
        })
    }

    /// The names of the items under the key.
    pub fn page(&self, alloc: Global) -> Result<String, AllocError> {
        let mut page = format!(in alloc; "{}:", self.key)?;
        for item in &self.items {
            if let Some(name) = self.catalogue.get().get(*item) {
                write!(page, " {name}")?;
            }
        }
        Ok(page)
    }
}
