//! The list of a job's products.

use patch_base::Listed;
use source_model::Static;

/// Static products in source order.
pub type Products = Listed<Static>;
