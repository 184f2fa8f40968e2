// What the programs do alike: the answers to `--help` and `--version`, and the top call between the tape and standard output,
// with what is said on standard error. Each program brings its own drum.
#![tactic(auto)]

mod serving;
mod tape;

pub use gier_console::{
    CommandLine, LONGEST_PATH, read_arguments, read_command_line, read_plain_command_line,
};
pub use serving::{About, Job, end, serve, serve_job, tell};
