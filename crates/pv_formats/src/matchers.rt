//! Matchers of patterns, each made once.

ghost use Rattle.std.specs.Prelude.{◌≡◌, IfOk, IfSome};
ghost use Rattle.pv_formats.specs.Patterns.{matches};

use crate::patterns::Pattern;
use pv_text::Memory;
use regex::Matcher;
use std::alloc::Global;
use std::collections::BTreeMap;
use std::marker::Model;

/// A matcher beside the pattern that it is of. It is seen as the text of the pattern.
#[derive(Drop)]
struct Kept<'a> {
    pattern: &'a Pattern,
    matcher: Matcher<'a>,
}

impl<'a> Model for Kept<'a> {
    ghost use Rattle.std.specs.Prelude.{ℕ, List};
    ghost use Rattle.regex.specs.Strings.{matcher_pattern};
    ghost use Rattle.pv_formats.specs.Patterns.{MatchesAs};

    ghost Value = { List ℕ };

    ghost view = { λ k. k.pattern.now };

    ghost invariant = { λ k. MatchesAs (matcher_pattern k.matcher) k.pattern.now };
}

impl<'a> Kept<'a> {
    ghost use Rattle.std.specs.Prelude.{◌≡◌, IfOk, IsTrue};
    ghost use Rattle.pv_formats.specs.Patterns.{matches};

    fn new(alloc: Global, pattern: &'a Pattern) -> Result<Kept<'a>, Memory>
        ensures { IfOk result (λ k. k ≡ pattern.now) }
    {
        let matcher = pattern.matcher(alloc)?;
        Ok(Kept { pattern, matcher })
    }

    fn is_of(&self, pattern: &Pattern) -> bool
        ensures { IsTrue result → self.now ≡ pattern.now }
    {
        self.pattern.as_str() == pattern.as_str()
    }

    fn is_match(&mut self, text: &str) -> bool
        ensures found { result ≡ matches self.old text.now }
        ensures same { self.new ≡ self.old }
    {
        self.matcher.is_match(text)
    }
}

/// Whether texts match patterns. The matcher of a pattern is made where it is first asked for, and
/// is kept; no clause tells which are kept.
#[derive(Drop)]
pub struct Matchers<'a> {
    alloc: Global,
    kept: Vec<Kept<'a>>,
    /// The place of the matcher of each pattern.
    places: BTreeMap<&'a str, usize>,
}

impl<'a> Model for Matchers<'a> {
    ghost Value = { Unit {0} };

    ghost view = { λ _. tt };
}

impl<'a> Matchers<'a> {
    ghost use Rattle.std.specs.Prelude.{◌≡◌, IfOk, IfSome};
    ghost use Rattle.pv_formats.specs.Patterns.{matches};

    /// None is made yet.
    pub fn new(alloc: Global) -> Matchers<'a> {
        Matchers {
            alloc,
            kept: Vec::new(alloc),
            places: BTreeMap::new(alloc),
        }
    }

    /// Lets the matchers go.
    pub fn release(self) {}

    /// What a kept matcher says, where there is one.
    fn by_kept(&mut self, pattern: &Pattern, text: &str) -> Option<bool>
        ensures { IfSome result (λ found. found ≡ matches pattern.now text.now) }
    {
        let place = self.places.get(pattern.as_str()).copied()?;
        let kept = self.kept.get_mut(place)?;
        if kept.is_of(pattern) {
            Some(kept.is_match(text))
        } else {
            None
        }
    }

    fn keep(&mut self, kept: Kept<'a>) -> Result<(), Memory> {
        self.places.insert(kept.pattern.as_str(), self.kept.len())?;
        self.kept.push(kept)?;
        Ok(())
    }

    /// Whether the pattern has a match anywhere in the text.
    pub fn is_match(&mut self, pattern: &'a Pattern, text: &str) -> Result<bool, Memory>
        ensures { IfOk result (λ found. found ≡ matches pattern.now text.now) }
    {
        if let Some(found) = self.by_kept(pattern, text) {
            return Ok(found);
        }
        let mut kept = Kept::new(self.alloc, pattern)?;
        let found = kept.is_match(text);
        self.keep(kept)?;
        Ok(found)
    }
}
