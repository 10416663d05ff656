// Input and output of programs, over every reader and writer: the front of an input, and a text that is written.
#![tactic(auto)]

mod input;
mod output;

pub use input::read_front;
pub use output::write_text;
