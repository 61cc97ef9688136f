//! A value of which contracts see nothing, since only what the calls told is compared.
use std::marker::Model;

/// A value of which contracts see nothing, so that functions that hold one have short proofs.
pub(crate) struct Hidden<T: Drop> {
    pub(crate) inside: T,
}

impl<T: Drop> Model for Hidden<T> {
    ghost Value = { Unit {0} };

    ghost view = { λ _. tt };
}

// Written out, so that a function that lets one go sees one call and not the drop of each part.
impl<T: Drop> Drop for Hidden<T> {
    fn drop(self) {
        let Hidden { inside: _ } = self;
    }
}
