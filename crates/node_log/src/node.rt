//! A node that the caller makes before it is needed.
use crate::block::Spare;
use patch_base::Memory;
use std::alloc::Global;
use std::marker::Model;

/// Room for one entry of a log. A clause sees it as the place of its block, so that a node that is
/// handed back can be said to be the node that was handed in.
pub struct Node<T> {
    spare: Spare<T, Global>,
}

impl<T> Model for Node<T> {
    ghost use denote.RawPtr.{Ptr};

    ghost Value = { Ptr };

    ghost view = { λ n. n.spare.ptr };
}

impl<T> Node<T> {
    /// Room for one entry, from the allocator. Where its block lies and when there is memory is open.
    pub fn empty(alloc: Global) -> Result<Node<T>, Memory> {
        match Spare::take(alloc) {
            Ok(spare) => Ok(Node { spare }),
            Err(_) => Err(Memory),
        }
    }

    pub(crate) fn into_spare(self) -> Spare<T, Global> {
        let Node { spare } = self;
        spare
    }
}

impl<T> Drop for Node<T> {
    fn drop(self) {
        let Node { spare } = self;
        drop(spare.free());
    }
}
