ghost use Rattle.std.specs.Prelude.{◌≡◌};
ghost use Rattle.pv_cli.specs.Codes.{code_of};

/// How a run ended.
#[derive(Clone, Copy, Debug, PartialEq, Eq)]
pub enum Status {
    /// The document is valid; its value was printed.
    Valid,
    /// The document is not valid; its errors were printed.
    Invalid,
    WordsRefused,
    SchemaRefused,
    /// A file is not there, or could not be read.
    ReadFault,
    TooLarge,
    /// Standard output took a part of the answer.
    WriteFault,
    Memory,
    DumpRefused,
    /// The words, the schema or the document are not served yet.
    NotYet,
}

impl Status {
    /// The number with which the program ends.
    pub fn code(&self) -> u8
        ensures { result ≡ code_of self.now }
    {
        match self {
            Status::Valid => 0,
            Status::Invalid => 1,
            Status::WordsRefused => 2,
            Status::SchemaRefused => 3,
            Status::ReadFault => 4,
            Status::TooLarge => 5,
            Status::WriteFault => 6,
            Status::Memory => 7,
            Status::DumpRefused => 8,
            Status::NotYet => 9,
        }
    }
}
