//! The commands, their options and their operands, as tables.

ghost use Rattle.std.specs.Prelude.{◌≡◌};
ghost use Rattle.pv_command.specs.Command as spec;
ghost use Rattle.pv_command.specs.Entries.{AreEntries, kinds_of, options_of, rows_of};

use crate::options::Setting;

/// An option: its name, and what it asks for.
#[derive(Clone, Copy)]
pub(crate) struct OptionEntry {
    pub(crate) name: &'static str,
    pub(crate) asks: Setting,
}

/// The options that a command takes.
#[derive(Clone, Copy)]
pub(crate) enum OptionSet {
    Empty,
    Strictness,
}

const EMPTY: [OptionEntry; 0] = [];

const STRICTNESS: [OptionEntry; 2] = [
    OptionEntry {
        name: "--strict",
        asks: Setting::Strict(true),
    },
    OptionEntry {
        name: "--lax",
        asks: Setting::Strict(false),
    },
];

impl OptionSet {
    pub(crate) fn entries(self) -> &'static [OptionEntry]
        ensures { rows_of result.now ≡ options_of self }
    {
        match self {
            OptionSet::Empty => &EMPTY,
            OptionSet::Strictness => &STRICTNESS,
        }
    }
}

/// What may stand as an operand.
#[derive(Clone, Copy)]
pub(crate) enum Operand {
    /// A file's name, or `-`.
    File,
    /// A file's name, or `-` where the first operand is not that.
    OtherFile,
}

/// The operands that a command takes.
#[derive(Clone, Copy)]
pub(crate) enum OperandList {
    OneSchema,
    SchemaAndDocument,
}

const ONE_SCHEMA: [Operand; 1] = [Operand::File];

const SCHEMA_AND_DOCUMENT: [Operand; 2] = [Operand::File, Operand::OtherFile];

impl OperandList {
    pub(crate) fn kinds(self) -> &'static [Operand]
        ensures { result.now ≡ kinds_of self }
    {
        match self {
            OperandList::OneSchema => &ONE_SCHEMA,
            OperandList::SchemaAndDocument => &SCHEMA_AND_DOCUMENT,
        }
    }
}

/// Which command is made of the words.
#[derive(Clone, Copy)]
pub(crate) enum Made {
    Validate,
    Lines,
    Check,
}

/// What stands behind a command's name, and what is made of it.
#[derive(Clone, Copy)]
pub(crate) struct Takes {
    pub(crate) options: OptionSet,
    pub(crate) operands: OperandList,
    pub(crate) made: Made,
}

/// A command's name, and what stands behind it, where the command is built.
#[derive(Clone, Copy)]
pub(crate) struct CommandEntry {
    pub(crate) name: &'static str,
    pub(crate) takes: Option<Takes>,
}

macro_rules! built {
    ($name:literal, $options:expr, $operands:expr, $made:expr) => {
        CommandEntry {
            name: $name,
            takes: Some(Takes {
                options: $options,
                operands: $operands,
                made: $made,
            }),
        }
    };
}

macro_rules! unbuilt {
    ($name:literal) => {
        CommandEntry {
            name: $name,
            takes: None,
        }
    };
}

const COMMANDS: [CommandEntry; 6] = [
    built!(
        "validate",
        OptionSet::Strictness,
        OperandList::SchemaAndDocument,
        Made::Validate
    ),
    unbuilt!("dump"),
    built!(
        "lines",
        OptionSet::Strictness,
        OperandList::SchemaAndDocument,
        Made::Lines
    ),
    built!(
        "check",
        OptionSet::Empty,
        OperandList::OneSchema,
        Made::Check
    ),
    unbuilt!("jsonschema"),
    unbuilt!("workload"),
];

/// All commands.
pub(crate) fn commands() -> &'static [CommandEntry]
    ensures { AreEntries result.now spec.commands }
{
    &COMMANDS
}
