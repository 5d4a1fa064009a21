//! What the words ask for, by the table of commands.

ghost use Rattle.std.specs.Prelude.{◌≡◌, ◌+◌, ◌<◌, ◌≤◌, ◌^◌, ◌↔◌, ℕ, IfErr, IfOk, IsTrue, Ok, false, bytes_eq, length};
ghost use Rattle.std.specs.List.{find};
ghost use Rattle.std.specs.Option.{option_copied};
ghost use Rattle.pv_command.specs.Command as spec;
ghost use Rattle.pv_command.specs.Command.{IsServed, asked_by, asked_from, begins_unbuilt, operands_from, options_from};
ghost use Rattle.pv_command.specs.Entries as entry;
ghost use Rattle.pv_command.specs.Entries.{AddsOption, IsFound, ReadsOperands, ReadsOptions, form_of, is_not_built};
ghost use Rattle.pv_command.specs.Operands as operand;
ghost use Rattle.pv_command.specs.Options as option;

use crate::asked::{Asked, Command};
use crate::options::{Options, Setting};
use crate::table::{CommandEntry, Made, Operand, OptionEntry, Takes, commands};
use crate::words::Words;
use pv_text::{Memory, Text};
use std::alloc::Global;

fn is_option(word: &str) -> bool
    ensures { result ≡ option.is_option word.now }
{
    match word.as_bytes() {
        [] => false,
        [_] => false,
        [a, b, ..] => *a == b'-' && *b == b'-',
    }
}

fn is_input(word: &str) -> bool
    ensures { result ≡ operand.is_input word.now }
{
    word == "-"
}

/// What the option of this name asks for.
fn setting_named(entries: &[OptionEntry], word: &str) -> Option<Setting>
    ensures { result ≡ entry.setting_named entries.now word.now }
{
    for entry in entries {
        if word == entry.name {
            return Some(entry.asks);
        }
    }
    None
}

/// Adds what a word asks for, where it is an option that can stand behind these.
fn add_option(options: &mut Options, entries: &[OptionEntry], word: &str) -> bool
    ensures { AddsOption result
        (option.effect_of (entry.rows_of entries.now) options.old word.now) options.new }
{
    match setting_named(entries, word) {
        Some(setting) => {
            if options.bar(setting) {
                return false;
            }
            options.set(setting);
            true
        }
        None => false,
    }
}

/// How many options stand before the first operand; what they ask for is added to the others. An
/// `Err` holds how many stand before the one that cannot.
fn read_options(options: &mut Options, takes: &Takes, words: &[Text]) -> Result<usize, usize>
    ensures within { IfOk result (λ count. count ≤ length words.now) }
    ensures before { IfErr result (λ count. count ≤ length words.now) }
    ensures reads { ReadsOptions (form_of takes.now) options.old options.new words.now result }
{
    for count in 0..words.len() {
        let word = words[count].as_str();
        if !is_option(word) {
            return Ok(count);
        }
        if !add_option(options, takes.options.entries(), word) {
            return Err(count);
        }
    }
    Ok(words.len())
}

/// Whether a word can stand as an operand behind others.
fn fits(kind: Operand, before: &[Text], word: &str) -> bool
    ensures { result ≡ entry.fits kind before.now word.now }
{
    match kind {
        Operand::File => true,
        Operand::OtherFile => match before {
            [] => true,
            [first, ..] => !(is_input(first.as_str()) && is_input(word)),
        },
    }
}

/// Whether the words are operands of these kinds. An `Err` holds how many stand before the one that
/// cannot or is missing.
fn read_operands(kinds: &[Operand], words: &[Text]) -> Result<(), usize>
    ensures before { IfErr result (λ count. count ≤ length words.now) }
    ensures reads { ReadsOperands kinds.now words.now result }
{
    for count in 0..kinds.len() {
        if count >= words.len() {
            return Err(count);
        }
        if !fits(kinds[count], &words[..count], words[count].as_str()) {
            return Err(count);
        }
    }
    if words.len() > kinds.len() {
        return Err(kinds.len());
    }
    Ok(())
}

/// The word at a place, or none.
fn word_at(alloc: Global, words: &[Text], at: usize) -> Result<Text, Memory>
    ensures { IfOk result (λ t. t ≡ entry.word_at at words.now) }
{
    match words.get(at) {
        Some(word) => word.share(alloc),
        None => Text::from_str(alloc, ""),
    }
}

/// The command that is made of the options and the operands.
fn make(alloc: Global, made: Made, options: &Options, operands: &[Text]) -> Result<Command, Memory>
    ensures { IfOk result (λ c. c ≡ entry.made_of made options.now operands.now) }
{
    match made {
        Made::Validate => {
            let schema = word_at(alloc, operands, 0)?;
            let document = word_at(alloc, operands, 1)?;
            Ok(Command::Validate {
                strict: options.strict,
                schema,
                document,
            })
        }
        Made::Lines => {
            let schema = word_at(alloc, operands, 0)?;
            let document = word_at(alloc, operands, 1)?;
            Ok(Command::Lines {
                strict: options.strict,
                schema,
                document,
            })
        }
        Made::Check => Ok(Command::Check {
            schema: word_at(alloc, operands, 0)?,
        }),
    }
}

/// What these options and the operands ask for, of which the first stands at a place.
fn read_made(
    alloc: Global,
    takes: &Takes,
    options: &Options,
    place: u64,
    operands: &[Text],
) -> Result<Asked, Memory>
    requires { place + length operands.now < 2 ^ 64 }
    ensures served { IfOk result (λ a. IsServed a) }
    ensures asked { IfOk result (λ a. a ≡ asked_by false
        (asked_from (operands_from ((form_of takes.now).operands options.now)) place operands.now)) }
{
    match read_operands(takes.operands.kinds(), operands) {
        Ok(()) => Ok(Asked::Run(make(alloc, takes.made, options, operands)?)),
        Err(count) => Ok(Asked::Refused {
            at: place + count as u64,
        }),
    }
}

/// What the words behind a command's name ask for.
fn read_behind(alloc: Global, takes: &Takes, words: &[Text]) -> Result<Asked, Memory>
    ensures served { IfOk result (λ a. IsServed a) }
    ensures asked { IfOk result (λ a. a ≡ asked_by false
        (asked_from (options_from (form_of takes.now) option.no_options) 2 words.now)) }
{
    let mut options = Options::none();
    match read_options(&mut options, takes, words) {
        Ok(count) => read_made(alloc, takes, &options, 2 + count as u64, &words[count..]),
        Err(count) => Ok(Asked::Refused {
            at: 2 + count as u64,
        }),
    }
}

/// The entry of this name.
fn entry_named<'a>(entries: &'a [CommandEntry], name: &str) -> Option<&'a CommandEntry>
    ensures { option_copied result ≡ find (λ e. bytes_eq name.now e.name.now) entries.now }
{
    for entry in entries {
        if name == entry.name {
            return Some(entry);
        }
    }
    None
}

/// The command of this name.
fn command_named(name: &str) -> Option<&'static CommandEntry>
    ensures { IsFound (option_copied result) (spec.command_named name.now) }
{
    entry_named(commands(), name)
}

/// What the words ask for.
#[tactic(auto, unfolding(crate::specs::Command::asked, crate::specs::Command::command, crate::specs::Command::asked_from, crate::specs::Command::step))]
pub fn command(words: &Words) -> Result<Asked, Memory>
    ensures asked { IfOk result (λ a. a ≡ spec.asked words.now) }
    ensures served { IfOk result (λ a. IsServed a) }
    ensures not_built { (result ≡ Ok Asked.NotBuilt) ↔ IsTrue (begins_unbuilt words.now) }
    ensures tested { is_not_built result ≡ begins_unbuilt words.now }
{
    match words.as_slice() {
        [] => Ok(Asked::Refused { at: 1 }),
        [name, more @ ..] => match command_named(name.as_str()) {
            Some(entry) => match &entry.takes {
                Some(takes) => read_behind(words.alloc(), takes, more),
                None => Ok(Asked::NotBuilt),
            },
            None => Ok(Asked::Refused { at: 1 }),
        },
    }
}
