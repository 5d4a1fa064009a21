//! Copies of rules and settings. The texts in them are shared.

ghost use Rattle.std.specs.Prelude.{◌≡◌, IfOk};

use crate::fields_rule::{AliasRule, FieldRule, FieldsRule};
use crate::literal::{EnumMember, Literal};
use crate::scalar_rule::{EnumRule, ScalarRule, StrRule, UrlRule};
use crate::settings::Settings;
use crate::union_rule::TagRule;
use pv_text::{Memory, Text};
use pv_tree::{Loc, Names, Row};
use sqlite_items::Items;
use std::alloc::Global;

fn copy_text(alloc: Global, text: &Option<Text>) -> Result<Option<Text>, Memory>
    ensures { IfOk result (λ copied. copied ≡ text.now) }
{
    match text {
        Some(text) => Ok(Some(text.share(alloc)?)),
        None => Ok(None),
    }
}

fn copy_optional_names(alloc: Global, names: &Option<Names>) -> Result<Option<Names>, Memory>
    ensures { IfOk result (λ copied. copied ≡ names.now) }
{
    match names {
        Some(names) => Ok(Some(copy_names(alloc, names.as_slice())?)),
        None => Ok(None),
    }
}

/// An equal list of names.
pub fn copy_names(alloc: Global, names: &[Text]) -> Result<Names, Memory>
    ensures { IfOk result (λ copied. copied ≡ names.now) }
{
    let mut copied = Vec::with_capacity(alloc, names.len())?;
    for name in names {
        copied.push(name.share(alloc)?)?;
    }
    Row::from_vec(alloc, copied)
}

/// An equal list of values.
pub fn copy_literals(alloc: Global, literals: &[Literal]) -> Result<Items<Literal>, Memory>
    ensures { IfOk result (λ copied. copied ≡ literals.now) }
{
    let mut copied = Vec::with_capacity(alloc, literals.len())?;
    for literal in literals {
        copied.push(literal.copy(alloc)?)?;
    }
    Ok(Items::from_vec(copied))
}

/// An equal list of members.
pub fn copy_members(alloc: Global, members: &[EnumMember]) -> Result<Items<EnumMember>, Memory>
    ensures { IfOk result (λ copied. copied ≡ members.now) }
{
    let mut copied = Vec::with_capacity(alloc, members.len())?;
    for member in members {
        copied.push(member.copy(alloc)?)?;
    }
    Ok(Items::from_vec(copied))
}

impl Literal {
    /// An equal value.
    pub fn copy(&self, alloc: Global) -> Result<Literal, Memory>
        ensures { IfOk result (λ copied. copied ≡ self.now) }
    {
        match self {
            Literal::Null => Ok(Literal::Null),
            Literal::Flag(flag) => Ok(Literal::Flag(*flag)),
            Literal::Int(n) => Ok(Literal::Int(*n)),
            Literal::Text(text) => Ok(Literal::Text(text.share(alloc)?)),
        }
    }
}

impl EnumMember {
    /// An equal member.
    pub fn copy(&self, alloc: Global) -> Result<EnumMember, Memory>
        ensures { IfOk result (λ copied. copied ≡ self.now) }
    {
        Ok(EnumMember {
            name: self.name.share(alloc)?,
            value: self.value.copy(alloc)?,
        })
    }
}

impl StrRule {
    fn copy(&self, alloc: Global) -> Result<StrRule, Memory>
        ensures { IfOk result (λ copied. copied ≡ self.now) }
    {
        Ok(StrRule {
            min_length: self.min_length,
            max_length: self.max_length,
            pattern: copy_text(alloc, &self.pattern)?,
            strip_whitespace: self.strip_whitespace,
        })
    }
}

impl UrlRule {
    fn copy(&self, alloc: Global) -> Result<UrlRule, Memory>
        ensures { IfOk result (λ copied. copied ≡ self.now) }
    {
        Ok(UrlRule {
            max_length: self.max_length,
            allowed_schemes: copy_optional_names(alloc, &self.allowed_schemes)?,
        })
    }
}

impl EnumRule {
    fn copy(&self, alloc: Global) -> Result<EnumRule, Memory>
        ensures { IfOk result (λ copied. copied ≡ self.now) }
    {
        Ok(EnumRule {
            cls: self.cls.share(alloc)?,
            members: copy_members(alloc, self.members.as_slice())?,
            sub_type: self.sub_type,
        })
    }
}

impl ScalarRule {
    /// An equal rule.
    pub fn copy(&self, alloc: Global) -> Result<ScalarRule, Memory>
        ensures { IfOk result (λ copied. copied ≡ self.now) }
    {
        match self {
            ScalarRule::Any => Ok(ScalarRule::Any),
            ScalarRule::None => Ok(ScalarRule::None),
            ScalarRule::Bool => Ok(ScalarRule::Bool),
            ScalarRule::Int(rule) => Ok(ScalarRule::Int(*rule)),
            ScalarRule::Str(rule) => Ok(ScalarRule::Str(rule.copy(alloc)?)),
            ScalarRule::Bytes(rule) => Ok(ScalarRule::Bytes(*rule)),
            ScalarRule::Uuid(version) => Ok(ScalarRule::Uuid(*version)),
            ScalarRule::Url(rule) => Ok(ScalarRule::Url(rule.copy(alloc)?)),
            ScalarRule::Literal(expected) => {
                Ok(ScalarRule::Literal(copy_literals(alloc, expected.as_slice())?))
            }
            ScalarRule::Enum(rule) => Ok(ScalarRule::Enum(rule.copy(alloc)?)),
        }
    }
}

impl Settings {
    /// Equal settings.
    pub fn copy(&self, alloc: Global) -> Result<Settings, Memory>
        ensures { IfOk result (λ copied. copied ≡ self.now) }
    {
        Ok(Settings {
            title: copy_text(alloc, &self.title)?,
            strict: self.strict,
            extra_fields_behavior: self.extra_fields_behavior,
            populate_by_name: self.populate_by_name,
            validate_by_alias: self.validate_by_alias,
            validate_by_name: self.validate_by_name,
            serialize_by_alias: self.serialize_by_alias,
            loc_by_alias: self.loc_by_alias,
            validate_default: self.validate_default,
            str_strip_whitespace: self.str_strip_whitespace,
            str_min_length: self.str_min_length,
            str_max_length: self.str_max_length,
        })
    }
}

fn copy_paths(alloc: Global, paths: &[Loc]) -> Result<Items<Loc>, Memory>
    ensures { IfOk result (λ copied. copied ≡ paths.now) }
{
    let mut copied = Vec::with_capacity(alloc, paths.len())?;
    for path in paths {
        copied.push(path.copy(alloc)?)?;
    }
    Ok(Items::from_vec(copied))
}

impl AliasRule {
    /// An equal alias.
    pub fn copy(&self, alloc: Global) -> Result<AliasRule, Memory>
        ensures { IfOk result (λ copied. copied ≡ self.now) }
    {
        Ok(AliasRule {
            paths: copy_paths(alloc, self.paths.as_slice())?,
        })
    }
}

fn copy_alias(alloc: Global, alias: &Option<AliasRule>) -> Result<Option<AliasRule>, Memory>
    ensures { IfOk result (λ copied. copied ≡ alias.now) }
{
    match alias {
        Some(alias) => Ok(Some(alias.copy(alloc)?)),
        None => Ok(None),
    }
}

impl FieldRule {
    /// An equal rule.
    pub fn copy(&self, alloc: Global) -> Result<FieldRule, Memory>
        ensures { IfOk result (λ copied. copied ≡ self.now) }
    {
        Ok(FieldRule {
            name: self.name.share(alloc)?,
            validation_alias: copy_alias(alloc, &self.validation_alias)?,
            serialization_alias: copy_text(alloc, &self.serialization_alias)?,
            serialization_exclude: self.serialization_exclude,
            required: self.required,
        })
    }
}

fn copy_fields(alloc: Global, fields: &[FieldRule]) -> Result<Items<FieldRule>, Memory>
    ensures { IfOk result (λ copied. copied ≡ fields.now) }
{
    let mut copied = Vec::with_capacity(alloc, fields.len())?;
    for field in fields {
        copied.push(field.copy(alloc)?)?;
    }
    Ok(Items::from_vec(copied))
}

impl FieldsRule {
    /// An equal rule.
    pub fn copy(&self, alloc: Global) -> Result<FieldsRule, Memory>
        ensures { IfOk result (λ copied. copied ≡ self.now) }
    {
        Ok(FieldsRule {
            kind: self.kind,
            fields: copy_fields(alloc, self.fields.as_slice())?,
            extra_behavior: self.extra_behavior,
        })
    }
}

impl TagRule {
    /// An equal rule.
    pub fn copy(&self, alloc: Global) -> Result<TagRule, Memory>
        ensures { IfOk result (λ copied. copied ≡ self.now) }
    {
        Ok(TagRule {
            discriminator: self.discriminator.copy(alloc)?,
            tags: copy_names(alloc, self.tags.as_slice())?,
        })
    }
}
