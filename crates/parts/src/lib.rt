// A request that arrives in parts: a reader of our own, and a state that a host lends. Reading is done at the finishing call.
#![tactic(auto)]

pub mod kept;
pub mod lent;
pub mod reader;

pub use reader::Reader;
