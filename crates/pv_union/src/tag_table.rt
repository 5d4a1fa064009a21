//! The choices of tagged unions by their tags.

use crate::compact_text::compact_text;
use crate::tag::{Tag, tag_of};
use crate::tag_places::places_of;
use crate::tag_texts::{discriminator_text, int_text, tags_text};
use itoa::Buffer;
use pv_fault::Kind;
use pv_rules::TagRule;
use pv_text::{Memory, Text};
use pv_tree::Tree;
use std::alloc::Global;
use std::collections::BTreeMap;
use std::marker::Model;

/// The rule of a tagged union, with the places of its tags in an index. It is seen as the rule.
#[derive(Drop)]
pub struct TagTable {
    rule: TagRule,
    /// The first place of each tag.
    places: BTreeMap<String, usize>,
    /// The paths of the discriminator as a text.
    discriminator: Text,
    /// The tags as a text.
    expected: Text,
}

impl Model for TagTable {
    ghost use Rattle.std.specs.Prelude.{◌≡◌};
    ghost use Rattle.pv_rules.specs.declared.TagRule.{TagRule};
    ghost use Rattle.pv_union.specs.TagPlaces.{KeepsPlaces};
    ghost use Rattle.pv_union.specs.Tags.{discriminator_text, tags_text};

    ghost Value = { TagRule };

    ghost view = { λ t. t.rule };

    ghost invariant = { λ t. KeepsPlaces t.places t.rule.tags
        × ((t.discriminator ≡ discriminator_text t.rule.discriminator.paths)
        × (t.expected ≡ tags_text t.rule.tags)) };
}

impl TagTable {
    ghost use Rattle.std.specs.Prelude.{◌≡◌, slice_get, IfOk};
    ghost use Rattle.std.specs.Option.{option_copied};
    ghost use Rattle.std.specs.Fmt.{signed_decimal};
    ghost use Rattle.pv_union.specs.Tags as spec;
    ghost use Rattle.pv_union.specs.Tags.{chosen, place_from, place_of, read, unknown_tag};

    /// The table of a rule. The texts of errors are made here, once.
    pub fn build(alloc: Global, rule: &TagRule) -> Result<TagTable, Memory>
        ensures { IfOk result (λ t. t ≡ rule.now) }
    {
        Ok(TagTable {
            rule: rule.copy(alloc)?,
            places: places_of(alloc, rule.tags.as_slice())?,
            discriminator: discriminator_text(alloc, rule.discriminator.paths.as_slice())?,
            expected: tags_text(alloc, rule.tags.as_slice())?,
        })
    }

    /// The tag of the choice at this place.
    pub fn tag(&self, place: usize) -> Option<&Text>
        ensures { option_copied result ≡ slice_get self.now.tags place }
    {
        self.rule.tags.get(place)
    }

    fn place(&self, text: &str) -> Option<usize>
        ensures { result ≡ place_from 0 self.now.tags text.now }
    {
        self.places.get(text).copied()
    }

    fn place_of_int(&self, n: i128) -> Option<usize>
        ensures { result ≡ place_from 0 self.now.tags (signed_decimal n) }
    {
        let mut digits = Buffer::new();
        self.place(digits.format(n))
    }

    /// The place of the choice that has this tag. A whole number is looked up by its decimal text.
    pub fn find(&self, tag: &Tag<'_>) -> Option<usize>
        ensures { result ≡ place_of self.now.tags (read tag.now) }
    {
        match tag {
            Tag::NotObject => None,
            Tag::Missing => None,
            Tag::Text(text) => self.place(text.as_str()),
            Tag::Int(n) => self.place_of_int(*n),
            Tag::Odd(_) => None,
        }
    }

    /// The error of a tag that no choice has, by the text of the tag.
    fn unknown(&self, alloc: Global, tag: Text) -> Result<Kind, Memory>
        ensures { IfOk result (λ kind. kind ≡ unknown_tag self.now tag) }
    {
        Ok(Kind::UnionTagInvalid {
            discriminator: self.discriminator.share(alloc)?,
            tag,
            expected_tags: self.expected.share(alloc)?,
        })
    }

    /// The error of an input that no choice has the tag of.
    fn tag_error(&self, alloc: Global, tag: &Tag<'_>) -> Result<Kind, Memory>
        ensures { IfOk result (λ kind. kind ≡ spec.tag_error self.now (read tag.now)) }
    {
        match tag {
            Tag::NotObject => Ok(Kind::DictType),
            Tag::Missing => Ok(Kind::UnionTagNotFound {
                discriminator: self.discriminator.share(alloc)?,
            }),
            Tag::Text(text) => self.unknown(alloc, text.share(alloc)?),
            Tag::Int(n) => self.unknown(alloc, int_text(alloc, *n)?),
            Tag::Odd(tree) => self.unknown(alloc, compact_text(alloc, tree)?),
        }
    }

    /// The place of the choice that the input has the tag of, or what is wrong with the input.
    #[tactic(auto, unfolding(crate::specs::Tags::chosen))]
    pub fn choose(&self, alloc: Global, input: &Tree) -> Result<Result<usize, Kind>, Memory>
        ensures { IfOk result (λ r. r ≡ chosen self.now input.now) }
    {
        let tag = tag_of(&self.rule, input);
        match self.find(&tag) {
            Some(place) => Ok(Ok(place)),
            None => Ok(Err(self.tag_error(alloc, &tag)?)),
        }
    }
}
