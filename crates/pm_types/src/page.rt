//! The bytes of a page.

/// The bytes of a page, which are as many as its store's page size says.
#[derive(Debug, Drop)]
pub struct Page {
    pub bytes: Vec<u8>,
}
