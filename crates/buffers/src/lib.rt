// Texts put into lent buffers.
#![tactic(auto)]

mod outputs;
mod texts;

pub use outputs::Output;
pub use texts::{Text, text_in_memory, text_length, write_text};
