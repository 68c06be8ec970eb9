//! What was noted, for proofs alone.

ghost use Rattle.std.specs.Prelude.{◌≡◌, List, [], ◌∷◌, ◌++◌};
ghost use Rattle.std.specs.Borrow.{ftrue};

use std::marker::{Model, PhantomData};

/// A list that only proofs read. It takes no memory, and its methods do nothing when they run.
#[derive(Drop)]
pub(crate) struct Notes<A> {
    of: PhantomData<A>,
    pub ghost items: { List A },
}

impl<A> Model for Notes<A> {
    ghost also_owns = { λ _. ftrue };
}

impl<A> Notes<A> {
    /// Nothing was noted.
    pub fn new() -> Notes<A>
        ensures { result.items ≡ [] }
    {
        Notes { of: PhantomData }
    }

    /// The same notes, and this item after them.
    pub fn and(&self, item: &A) -> Notes<A>
        ensures { result.items ≡ self.now.items ++ item.now ∷ [] }
    {
        Notes { of: PhantomData }
    }
}
