//! What is asked for of files.
use herm_commands::RunOptions;

/// What is asked for of files: that they are checked, or that they are run.
#[derive(Drop)]
pub enum Purpose<'a> {
    Check,
    Run(RunOptions<'a>),
}
