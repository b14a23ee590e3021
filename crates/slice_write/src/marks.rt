//! Claimed cells with their products.

/// A claimed cell and the product whose number a picture shows on it.
#[derive(Clone, Copy)]
pub(crate) struct Mark {
    pub(crate) cell: u32,
    pub(crate) product: u32,
}
