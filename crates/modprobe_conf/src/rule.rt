// The rules of modprobe.d(5), and the lines that state them.
ghost use Rattle.std.specs.Prelude.{◌≡◌, ◌++◌, ◌∷◌, [], IfOk, IsTrue, OnOk, map};
ghost use Rattle.km_names.specs.Path.{underscored};
ghost use Rattle.km_names.specs.Space.{nonempty, words};
ghost use Rattle.modprobe_conf.specs.Rules.{command_of, rule_of_command, alias_rule};
ghost use Rattle.modprobe_conf.specs.Rules.{blacklist_rule, name_with_rest, softdep_rule};
ghost use Rattle.modprobe_conf.specs.Rules.{is_marker, words_after};

use km_names::{Alias, Blob, List, Name, Names, Statement, normal_alias, split_word, underscored};
use std::alloc::{AllocError, Global};

/// What a line of modprobe.d(5) states. Names have `_` for each `-`, and patterns their normal
/// form.
#[derive(Drop)]
pub enum Rule {
    /// `alias PATTERN NAME`: names that match the pattern mean the module.
    Alias { pattern: Alias, name: Name },
    /// `blacklist NAME`: the module's own aliases aren't used.
    Blacklist { name: Name },
    /// `options NAME TEXT`: parameters for loading the module.
    Options { name: Name, text: Blob },
    /// `install NAME COMMAND`: a command that is run instead of loading the module.
    Install { name: Name, command: Blob },
    /// `remove NAME COMMAND`: a command that is run instead of removing the module.
    Remove { name: Name, command: Blob },
    /// `softdep NAME pre: NAMES post: NAMES`: modules that are loaded before the module and after
    /// it, if they can be.
    Softdep { name: Name, pre: Names, post: Names },
}

impl Statement for Rule {
    ghost use Rattle.modprobe_conf.specs.Rules.{rule_of};

    ghost read = { rule_of };

    fn parse(alloc: Global, text: &[u8]) -> Result<Option<Rule>, AllocError> {
        let (word, rest) = split_word(text);
        match command_of(word) {
            Some(command) => rule_of_command(alloc, command, rest),
            None => Ok(None),
        }
    }
}

/// The rules of configuration files, in order.
pub type Rules = List<Rule>;

/// The first word of a line of modprobe.d(5).
#[derive(Clone, Copy)]
pub(crate) enum Command {
    Alias,
    Blacklist,
    Options,
    Install,
    Remove,
    Softdep,
}

/// A module's name, and the rest of a line, unchanged.
#[derive(Drop)]
pub(crate) struct Named {
    pub(crate) name: Name,
    pub(crate) text: Blob,
}

/// Returns the command of this name.
#[tactic(auto, unfolding(crate::specs::Rules::command_of))]
fn command_of(word: &[u8]) -> Option<Command>
    ensures { result ≡ command_of word.now }
{
    if word == b"alias".as_slice() {
        Some(Command::Alias)
    } else if word == b"blacklist".as_slice() {
        Some(Command::Blacklist)
    } else if word == b"options".as_slice() {
        Some(Command::Options)
    } else if word == b"install".as_slice() {
        Some(Command::Install)
    } else if word == b"remove".as_slice() {
        Some(Command::Remove)
    } else if word == b"softdep".as_slice() {
        Some(Command::Softdep)
    } else {
        None
    }
}

/// Returns what a line of this command states, from what follows the command.
fn rule_of_command(alloc: Global, command: Command, rest: &[u8]) -> Result<Option<Rule>, AllocError>
    ensures { IfOk result (λ rule. rule ≡ rule_of_command command rest.now) }
{
    match command {
        Command::Alias => alias_rule(alloc, rest),
        Command::Blacklist => blacklist_rule(alloc, rest),
        Command::Softdep => softdep_rule(alloc, rest),
        Command::Options => Ok(name_with_rest(alloc, rest)?.map(options_rule)),
        Command::Install => Ok(name_with_rest(alloc, rest)?.map(install_rule)),
        Command::Remove => Ok(name_with_rest(alloc, rest)?.map(remove_rule)),
    }
}

/// Returns the rule of `alias PATTERN NAME`, from what follows the command. Further words are
/// ignored.
fn alias_rule(alloc: Global, rest: &[u8]) -> Result<Option<Rule>, AllocError>
    ensures { IfOk result (λ rule. rule ≡ alias_rule rest.now) }
{
    let (pattern, rest) = split_word(rest);
    let (name, _further) = split_word(rest);
    if name.is_empty() {
        return Ok(None);
    }
    match normal_alias(alloc, pattern)? {
        Some(pattern) => Ok(Some(Rule::Alias {
            pattern,
            name: underscored(alloc, name)?,
        })),
        None => Ok(None),
    }
}

/// Returns the rule of `blacklist NAME`, from what follows the command. Further words are ignored.
fn blacklist_rule(alloc: Global, rest: &[u8]) -> Result<Option<Rule>, AllocError>
    ensures { IfOk result (λ rule. rule ≡ blacklist_rule rest.now) }
{
    let (name, _further) = split_word(rest);
    if name.is_empty() {
        return Ok(None);
    }
    Ok(Some(Rule::Blacklist {
        name: underscored(alloc, name)?,
    }))
}

/// Returns the rule of `softdep NAME pre: NAMES post: NAMES`, from what follows the command.
fn softdep_rule(alloc: Global, rest: &[u8]) -> Result<Option<Rule>, AllocError>
    ensures { IfOk result (λ rule. rule ≡ softdep_rule rest.now) }
{
    let (name, list) = split_word(rest);
    if list.is_empty() {
        return Ok(None);
    }
    Ok(Some(Rule::Softdep {
        name: underscored(alloc, name)?,
        pre: names_after(alloc, list, b"pre:")?,
        post: names_after(alloc, list, b"post:")?,
    }))
}

/// Returns a name and the rest after it. The result is `None` if the rest is empty.
fn name_with_rest(alloc: Global, rest: &[u8]) -> Result<Option<Named>, AllocError>
    ensures { IfOk result (λ both. both ≡ name_with_rest rest.now) }
{
    let (name, text) = split_word(rest);
    if text.is_empty() {
        return Ok(None);
    }
    Ok(Some(Named {
        name: underscored(alloc, name)?,
        text: Blob::from_slice(alloc, text)?,
    }))
}

/// Returns the rule of `options NAME TEXT`.
fn options_rule(named: Named) -> Rule
    ensures { result ≡ Rule.Options named.name named.text }
{
    let Named { name, text } = named;
    Rule::Options { name, text }
}

/// Returns the rule of `install NAME COMMAND`.
fn install_rule(named: Named) -> Rule
    ensures { result ≡ Rule.Install named.name named.text }
{
    let Named { name, text } = named;
    Rule::Install {
        name,
        command: text,
    }
}

/// Returns the rule of `remove NAME COMMAND`.
fn remove_rule(named: Named) -> Rule
    ensures { result ≡ Rule.Remove named.name named.text }
{
    let Named { name, text } = named;
    Rule::Remove {
        name,
        command: text,
    }
}

/// Returns the names that a text of words has after the marker `pre:` or `post:`, whichever is
/// given. They go from each place of the marker up to the next marker of either kind.
fn names_after(alloc: Global, text: &[u8], marker: &[u8]) -> Result<Names, AllocError>
    requires { IsTrue (is_marker marker.now) }
    ensures { IfOk result
        (λ names. names ≡ map underscored (words_after marker.now (words text.now))) }
{
    let mut names = Names::new(alloc);
    let mut belongs = false;
    let mut rest = text;
    while !rest.is_empty() {
        let (word, after) = split_word(rest);
        if is_marker(word) {
            belongs = word == marker;
        } else if belongs {
            push_name(alloc, &mut names, word)?;
        }
        rest = after;
    }
    Ok(names)
}

/// Returns whether a word of a line of soft dependencies is one of the markers `pre:` and `post:`.
fn is_marker(word: &[u8]) -> bool
    ensures { result ≡ is_marker word.now }
{
    word == b"pre:".as_slice() || word == b"post:".as_slice()
}

/// Adds the name that a word states. A text that begins with white space has an empty word there,
/// which states none.
fn push_name(alloc: Global, names: &mut Names, word: &[u8]) -> Result<(), AllocError>
    ensures { OnOk result (names.new ≡ names.old ++ map underscored (nonempty (word.now ∷ []))) }
{
    if word.is_empty() {
        return Ok(());
    }
    names.push(underscored(alloc, word)?)
}
