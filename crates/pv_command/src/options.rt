ghost use Rattle.std.specs.Prelude.{◌≡◌};
ghost use Rattle.pv_command.specs.Options.{no_options};
ghost use Rattle.pv_command.specs.Entries.{bars, with_setting};

use pv_tree::Tree;

/// What the options ask for.
#[derive(Drop)]
pub struct Options {
    /// Strict or lax, where it is said.
    pub strict: Option<bool>,
    /// What a dump keeps, where it is said.
    pub include: Option<Tree>,
    /// What a dump leaves out, where it is said.
    pub exclude: Option<Tree>,
    pub by_alias: bool,
    pub exclude_unset: bool,
    pub exclude_defaults: bool,
    pub exclude_none: bool,
}

/// What an option asks for.
#[derive(Clone, Copy)]
pub(crate) enum Setting {
    Strict(bool),
}

impl Options {
    /// Where no option stands.
    pub(crate) fn none() -> Options
        ensures { result ≡ no_options }
    {
        Options {
            strict: None,
            include: None,
            exclude: None,
            by_alias: false,
            exclude_unset: false,
            exclude_defaults: false,
            exclude_none: false,
        }
    }

    /// Whether an option that asks for this can no longer stand.
    pub(crate) fn bar(&self, setting: Setting) -> bool
        ensures { result ≡ bars setting self.now }
    {
        match setting {
            Setting::Strict(_) => self.strict.is_some(),
        }
    }

    /// Adds what one more option asks for.
    pub(crate) fn set(&mut self, setting: Setting)
        ensures { self.new ≡ with_setting setting self.old }
    {
        match setting {
            Setting::Strict(strict) => self.strict = Some(strict),
        }
    }
}
