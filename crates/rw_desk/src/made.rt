//! The result of a call that makes a handle.

/// A new handle, or the reply that refuses it.
#[derive(Debug, Drop, PartialEq)]
pub enum Made<H, R> {
    New(H),
    Refused(R),
}
