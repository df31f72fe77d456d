// A form's values read from a text.
#![tactic(auto)]

pub mod digits;
pub mod read;
pub mod token;
pub mod value;
