//! The words of a product.

use crate::word::Word;
use smallvec::SmallVec;

// The words of a product, of which one needs no allocation.
//
// Its drop is a function, so that a proof has one call at the drop of a product, whichever of its
// two places the words are in.
pub(crate) struct Words {
    pub(crate) kept: SmallVec<Word, 1>,
}

impl Drop for Words {
    fn drop(self) {
        let Words { kept: _ } = self;
    }
}
