use pv_text::{Memory, Text};
use regex::{Matcher, Regex};
use std::alloc::Global;
use std::marker::Model;
use thiserror::Error;

/// Why a text was not compiled.
#[derive(Clone, Copy, Debug, PartialEq, Eq, Error)]
pub enum PatternFault {
    #[error("no regular expression")]
    Syntax,
    #[error("out of memory")]
    Memory,
}

/// A compiled regular expression, seen as its text.
#[derive(Drop)]
pub struct Pattern {
    regex: Regex,
}

impl Model for Pattern {
    ghost use Rattle.std.specs.Prelude.{◌≡◌, ℕ, List};
    ghost use Rattle.regex.specs.Patterns.{default_config};
    ghost use Rattle.regex.specs.Strings.{regex_source, regex_config, IsReadFromSource};

    ghost Value = { List ℕ };

    ghost view = { λ p. regex_source p.regex };

    ghost invariant = { λ p. (regex_config p.regex ≡ default_config) × IsReadFromSource p.regex };
}

impl Pattern {
    ghost use Rattle.std.specs.Prelude.{◌≡◌, IfOk};
    ghost use Rattle.regex.specs.Strings.{matcher_pattern};
    ghost use Rattle.pv_formats.specs.Patterns.{MatchesAs};

    pub fn as_str(&self) -> &str
        ensures { result.now ≡ self.now }
    {
        self.regex.as_str()
    }

    /// A matcher of the pattern.
    pub(crate) fn matcher(&self, alloc: Global) -> Result<Matcher<'_>, Memory>
        ensures { IfOk result (λ m. MatchesAs (matcher_pattern m) self.now) }
    {
        let matcher = self.regex.matcher(alloc)?;
        Ok(matcher)
    }
}

ghost use Rattle.std.specs.Prelude.{◌≡◌, IfOk, OnOk, IfErr};
ghost use Rattle.pv_formats.specs.Patterns.{IsReadable};

/// Compiles a regular expression. A pattern that is too large compiled is want of memory.
pub fn compile_pattern(alloc: Global, text: &Text) -> Result<Pattern, PatternFault>
    ensures text { IfOk result (λ pattern. pattern ≡ text.now) }
    ensures readable { OnOk result (IsReadable text.now) }
    ensures syntax { IfErr result (λ e. e ≡ PatternFault.Syntax → ¬ IsReadable text.now) }
{
    match Regex::new(alloc, text.as_str()) {
        Ok(regex) => Ok(Pattern { regex }),
        Err(regex::Error::Syntax(_)) => Err(PatternFault::Syntax),
        Err(_) => Err(PatternFault::Memory),
    }
}
