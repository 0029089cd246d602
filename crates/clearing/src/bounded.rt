//! A list of bounded length, whose memory is got once.
ghost use Rattle.std.specs.Prelude.{◌≡◌, ◌≤◌, ◌<◌, List, [], ◌∷◌, ◌++◌, IfOk, length, vec_len, vec_capacity};

use std::alloc::{AllocError, Global};
use std::marker::Model;

/// At most N elements, with memory for N.
#[derive(Drop)]
pub struct BoundedVec<T, const N: usize> {
    list: Vec<T>,
}

impl<T, const N: usize> Model for BoundedVec<T, N> {
    ghost Value = { List T };

    ghost view = { λ b. b.list.items };

    ghost invariant = { λ b. record { few : vec_len b.list ≤ N; room : N ≤ vec_capacity b.list } };
}

impl<T: Drop, const N: usize> BoundedVec<T, N> {
    /// An empty list.
    pub(crate) fn new(heap: Global) -> Result<BoundedVec<T, N>, AllocError>
        ensures { IfOk result (λ made. made ≡ []) }
    {
        Ok(BoundedVec {
            list: Vec::with_capacity(heap, N)?,
        })
    }

    /// An empty list again, with its memory.
    pub(crate) fn clear(&mut self)
        ensures { self.new ≡ [] }
    {
        self.list.clear();
    }

    /// One element more, at the end.
    pub(crate) fn push(&mut self, item: T)
        requires not_full { length self.old < N }
        ensures { self.new ≡ self.old ++ item ∷ [] }
    {
        self.list.push_reserved(item);
    }

    /// The elements.
    pub fn as_slice(&self) -> &[T]
        ensures value { result.now ≡ self.now }
        ensures few { length result.now ≤ N }
    {
        &self.list
    }
}
