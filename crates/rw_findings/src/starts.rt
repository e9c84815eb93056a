//! Where losses began, and what receivers were given last.

mod finding;
mod receipts;
mod start;

pub use finding::starts_of;
pub use receipts::last_receipts_of;
pub use start::LossStart;
