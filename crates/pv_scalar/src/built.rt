use crate::enums::{EnumTests, Members};
use crate::formats::UrlTests;
use crate::literals::Literals;
use crate::schemes::Schemes;
use crate::texts::StrTests;
use pv_formats::{Pattern, PatternFault, compile_pattern};
use pv_rules::{
    BytesRule, EnumRule, IntRule, Literal, ScalarRule, Settings, StrRule, UrlRule, copy_literals,
    copy_members, copy_names,
};
use pv_text::{Memory, Text};
use pv_tree::Names;
use sqlite_items::Items;
use std::alloc::Global;
use std::marker::Model;

/// What a node asks for, with its pattern compiled and the values that it names in an index.
#[derive(Drop)]
pub(crate) enum Body {
    Any,
    None,
    Bool,
    Int(IntRule),
    Str(StrTests),
    Bytes(BytesRule),
    Uuid(Option<u64>),
    Url(UrlTests),
    Literal(Literals),
    Enum(EnumTests),
}

/// A node without child schemas, ready to be asked. It is seen as its rule and its settings.
#[derive(Drop)]
pub struct Scalar {
    pub(crate) body: Body,
    pub(crate) settings: Settings,
}

impl Model for Scalar {
    ghost use Rattle.pv_rules.specs.declared.ScalarRule.{ScalarRule};
    ghost use Rattle.pv_rules.specs.declared.Settings.{Settings};
    ghost use Rattle.pv_scalar.specs.Bodies.{rule_of};

    ghost Value = { ScalarRule × Settings };

    ghost view = { λ s. (rule_of s.body, s.settings) };
}

impl Scalar {
    ghost use Rattle.std.specs.Prelude.{◌≡◌, IfOk, OnOk, IfErr};
    ghost use Rattle.pv_scalar.specs.Scalars.{IsBuildable};

    /// The scalar of a rule under settings. The pattern is compiled here, and the values that the
    /// rule names are put in an index.
    pub fn build(
        alloc: Global,
        rule: &ScalarRule,
        settings: &Settings,
    ) -> Result<Scalar, PatternFault>
        ensures value { IfOk result (λ s. s ≡ (rule.now, settings.now)) }
        ensures buildable { OnOk result (IsBuildable rule.now) }
        ensures syntax { IfErr result (λ e. e ≡ PatternFault.Syntax → ¬ IsBuildable rule.now) }
    {
        match settings.copy(alloc) {
            Ok(settings) => match body_of(alloc, rule) {
                Ok(body) => Ok(Scalar { body, settings }),
                Err(fault) => Err(fault),
            },
            Err(Memory) => Err(PatternFault::Memory),
        }
    }
}

ghost use Rattle.std.specs.Prelude.{◌≡◌, IfOk, OnOk, IfErr};
ghost use Rattle.pv_scalar.specs.TestRules.{str_rule, url_rule, enum_rule};
ghost use Rattle.pv_scalar.specs.Bodies.{rule_of};
ghost use Rattle.pv_scalar.specs.Scalars.{IsBuildable, HasReadablePattern};

fn pattern(alloc: Global, text: &Option<Text>) -> Result<Option<Pattern>, PatternFault>
    ensures value { IfOk result (λ p. p ≡ text.now) }
    ensures readable { OnOk result (HasReadablePattern text.now) }
    ensures syntax { IfErr result (λ e. e ≡ PatternFault.Syntax → ¬ HasReadablePattern text.now) }
{
    match text {
        None => Ok(None),
        Some(text) => match compile_pattern(alloc, text) {
            Ok(pattern) => Ok(Some(pattern)),
            Err(fault) => Err(fault),
        },
    }
}

fn str_tests(alloc: Global, rule: &StrRule) -> Result<StrTests, PatternFault>
    ensures value { IfOk result (λ t. str_rule t ≡ rule.now) }
    ensures readable { OnOk result (HasReadablePattern rule.now.pattern) }
    ensures syntax { IfErr result (λ e. e ≡ PatternFault.Syntax → ¬ HasReadablePattern rule.now.pattern) }
{
    match pattern(alloc, &rule.pattern) {
        Ok(pattern) => Ok(StrTests {
            min_length: rule.min_length,
            max_length: rule.max_length,
            pattern,
            strip_whitespace: rule.strip_whitespace,
        }),
        Err(fault) => Err(fault),
    }
}

fn schemes(alloc: Global, names: &Option<Names>) -> Result<Option<Schemes>, Memory>
    ensures { IfOk result (λ s. s ≡ names.now) }
{
    match names {
        None => Ok(None),
        Some(names) => Ok(Some(Schemes::new(alloc, copy_names(alloc, names.as_slice())?)?)),
    }
}

fn url_tests(alloc: Global, rule: &UrlRule) -> Result<UrlTests, Memory>
    ensures { IfOk result (λ t. url_rule t ≡ rule.now) }
{
    Ok(UrlTests {
        max_length: rule.max_length,
        allowed_schemes: schemes(alloc, &rule.allowed_schemes)?,
    })
}

fn enum_tests(alloc: Global, rule: &EnumRule) -> Result<EnumTests, Memory>
    ensures { IfOk result (λ t. enum_rule t ≡ rule.now) }
{
    let members = copy_members(alloc, rule.members.as_slice())?;
    Ok(EnumTests {
        cls: rule.cls.share(alloc)?,
        members: Members::new(alloc, members)?,
        sub_type: rule.sub_type,
    })
}

fn literals(alloc: Global, values: &Items<Literal>) -> Result<Literals, Memory>
    ensures { IfOk result (λ l. l ≡ values.now) }
{
    Literals::new(alloc, copy_literals(alloc, values.as_slice())?)
}

fn body_of(alloc: Global, rule: &ScalarRule) -> Result<Body, PatternFault>
    ensures value { IfOk result (λ b. rule_of b ≡ rule.now) }
    ensures buildable { OnOk result (IsBuildable rule.now) }
    ensures syntax { IfErr result (λ e. e ≡ PatternFault.Syntax → ¬ IsBuildable rule.now) }
{
    match rule {
        ScalarRule::Any => Ok(Body::Any),
        ScalarRule::None => Ok(Body::None),
        ScalarRule::Bool => Ok(Body::Bool),
        ScalarRule::Int(rule) => Ok(Body::Int(*rule)),
        ScalarRule::Str(rule) => match str_tests(alloc, rule) {
            Ok(tests) => Ok(Body::Str(tests)),
            Err(fault) => Err(fault),
        },
        ScalarRule::Bytes(rule) => Ok(Body::Bytes(*rule)),
        ScalarRule::Uuid(version) => Ok(Body::Uuid(*version)),
        ScalarRule::Url(rule) => match url_tests(alloc, rule) {
            Ok(tests) => Ok(Body::Url(tests)),
            Err(Memory) => Err(PatternFault::Memory),
        },
        ScalarRule::Literal(values) => match literals(alloc, values) {
            Ok(values) => Ok(Body::Literal(values)),
            Err(Memory) => Err(PatternFault::Memory),
        },
        ScalarRule::Enum(rule) => match enum_tests(alloc, rule) {
            Ok(tests) => Ok(Body::Enum(tests)),
            Err(Memory) => Err(PatternFault::Memory),
        },
    }
}
