use crate::options::Options;
use pv_text::Text;

/// A command with what it is asked for. A file's name `-` stands for standard input.
#[derive(Drop)]
pub enum Command {
    Validate {
        /// Strict or lax, where the words say so.
        strict: Option<bool>,
        schema: Text,
        document: Text,
    },
    Dump {
        options: Options,
        schema: Text,
        document: Text,
    },
    Lines {
        /// Strict or lax, where the words say so.
        strict: Option<bool>,
        schema: Text,
        document: Text,
    },
    Check {
        schema: Text,
    },
    JsonSchema {
        schema: Text,
    },
    Workload {
        seed: u64,
        count: u64,
    },
}

/// What the words ask for.
#[derive(Drop)]
pub enum Asked {
    Run(Command),
    /// The place, from 1, of the first word that cannot stand there, or of the first that is missing.
    Refused { at: u64 },
    /// The first word is a command that is not built yet. The words behind it are not looked at.
    NotBuilt,
}
