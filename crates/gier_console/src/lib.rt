// What stands between a program and its user: the words of the command line, the tape in a file, and what is said of the errors
// of a program. It compiles and runs nothing.
#![tactic(auto)]

mod advice;
mod arguments;
mod explaining;
mod printed;
mod reading;

pub use arguments::{
    CommandLine, LONGEST_PATH, is_path, read_arguments, read_command_line, read_plain_command_line,
};
pub use explaining::explain;
pub use printed::Printed;
pub use reading::{ProgramText, TapeReader};
