// The stores of a batch's updates on scratch memory: kept, and made.
#![tactic(auto)]

mod stores;

pub use stores::{STORE, keep_update, make_all};
