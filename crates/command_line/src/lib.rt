//! What the programs share on their command lines: calls for help, options, input files, and hints.
#![tactic(auto)]

mod help;
mod input;
mod line;
mod refusals;
mod source;
mod tell;
mod words;

pub use help::{help_file, help_flag, help_help, help_option, help_version};
pub use input::{Input, Noticed, Unopened, open};
pub use line::{CommandLine, Misuse, Operand, Rule, Unread, read_line};
pub use refusals::trace_hint;
pub use source::FileSource;
pub use tell::{Told, hint, hint_misuse, hint_refused, hint_unopened, tell_help, tell_version};
pub use words::{Answer, NoWords, answer_to, words_of};

/// The version of the four programs.
pub const VERSION: &str = "0.11";
