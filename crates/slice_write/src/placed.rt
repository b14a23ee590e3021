//! Products placed by their slices.

/// A product, claimed or settled, with its slice.
#[derive(Clone, Copy)]
pub(crate) struct Placed {
    pub(crate) slice: u32,
    pub(crate) product: u32,
}
