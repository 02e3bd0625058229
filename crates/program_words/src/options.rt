//! The options that words give to a command, as `clap` reads them.

ghost use Rattle.std.specs.Prelude.{◌≡◌, ◌≢◌, [], IfOk, OnOk, Err, drop, false, map};
ghost use Rattle.clap.specs.Words.{app_of, fault_of, found_of, matches_of, rows_of, rule_of};
ghost use Rattle.program_words.specs.Commands.{are_options, has_refused};
ghost use Rattle.program_words.specs.Given.{options_of};
ghost use Rattle.program_words.specs.Reading.{Tells, are_apart};
ghost use Rattle.program_words.specs.Rules.{action_for, app_for, rule_for, with_options};

use crate::command::{CommandName, LinkPaths};
use crate::error::WordsError;
use crate::name::{Name, Takes};
use clap::error::ErrorKind;
use clap::{Arg, ArgAction, ArgMatches, Command};
use osq_value::{NoMemory, SourceKind, SourceName, SourceNameList, Str};
use std::alloc::Global;
use std::collections::HashSet;

/// How often an option of that name may stand, and whether a value stands behind it.
fn action_of(name: Name) -> ArgAction
    ensures { result ≡ action_for name }
{
    match name.takes() {
        Takes::Nothing => ArgAction::SetTrue,
        _ if name.is_source() => ArgAction::Append,
        _ => ArgAction::Set,
    }
}

fn arg_of(alloc: Global, name: Name, required: bool) -> Arg<'static>
    ensures rule { rule_of result ≡ rule_for required name }
    ensures local { result.global ≡ false }
{
    let text = name.text();
    Arg::new(alloc, text)
        .long(text)
        .action(action_of(name))
        .required(required)
}

/// The command with options of these names behind those that it has.
fn with_options<'a>(
    alloc: Global,
    command: Command<'a>,
    names: &[Name],
    required: bool,
) -> Result<Command<'a>, NoMemory>
    ensures { IfOk result (λ made. app_of made ≡ with_options (app_of command.entry) required names.now) }
{
    let mut command = command;
    for name in names {
        command = command.arg(arg_of(alloc, *name, required))?;
    }
    Ok(command)
}

/// What `clap` reads by; it has no flag for help.
fn reader_of<'a>(alloc: Global, command: CommandName) -> Result<Command<'a>, NoMemory>
    ensures { IfOk result (λ reader. app_of reader ≡ app_for command) }
{
    let reader = Command::new(alloc, "osqd").disable_help_flag(true);
    let reader = with_options(alloc, reader, command.required(), true)?;
    with_options(alloc, reader, command.optional(), false)
}

/// What `clap` reads of the words of a command, of which it drops the first.
fn matches_of<'a>(
    alloc: Global,
    command: CommandName,
    words: &'a [&'a str],
) -> Result<ArgMatches<'a>, WordsError>
    ensures rows { IfOk result (λ matches. rows_of (found_of matches) ≡ matches_of (app_for command) (map (λ w. w.now) words.entry.now)) }
    ensures right { OnOk result (fault_of (app_for command) (map (λ w. w.now) words.entry.now) ≡ []) }
    ensures usage { result ≡ Err WordsError.Usage → fault_of (app_for command) (map (λ w. w.now) words.entry.now) ≢ [] }
{
    match reader_of(alloc, command)?.try_get_matches_from(words) {
        Ok(matches) => Ok(matches),
        Err(error) => match error.kind() {
            ErrorKind::OutOfMemory => Err(WordsError::NoMemory),
            _ => Err(WordsError::Usage),
        },
    }
}

/// The most sources that a command names.
const MOST_SOURCES: usize = 1000;

/// The options that words give to a command, as `clap` read them.
#[derive(Drop)]
pub(crate) struct GivenOptions<'a> {
    pub(crate) command: CommandName,
    /// The words, with that of the command. Clauses speak of them alone.
    words: &'a [&'a str],
    matches: ArgMatches<'a>,
    ghost told: { Tells command (rows_of (found_of matches)) (options_of (drop 1 (map (λ w. w.now) words.now))) },
}

impl<'a> GivenOptions<'a> {
    ghost use Rattle.std.specs.Prelude.{◌++◌, ◌&&◌, length, nat_le, true};
    ghost use Rattle.std.specs.List.{list_all};
    ghost use Rattle.std.specs.Option.{option_copied};
    ghost use Rattle.program_words.specs.declared.name.Takes.{Takes};
    ghost use Rattle.program_words.specs.Commands.{link_of, sources_named};
    ghost use Rattle.program_words.specs.Given.{number_of, number_or, stands, takes_word, value_of, value_or};
    ghost use Rattle.program_words.specs.Left.{options_in};
    ghost use Rattle.program_words.specs.Names.{takes};
    ghost use Rattle.program_words.specs.Reading.{all_fit, are_paired, paths_named, values_fit, values_named};

    /// Reads words that begin with that of the command, and have none that is refused wherever it stands.
    pub(crate) fn read(
        alloc: Global,
        command: CommandName,
        words: &'a [&'a str],
    ) -> Result<GivenOptions<'a>, WordsError>
        requires clean { has_refused (map (λ w. w.now) words.now) ≡ false }
        ensures command { IfOk result (λ options. options.command ≡ command) }
        ensures options { IfOk result (λ options. options_in options ≡ options_of (drop 1 (map (λ w. w.now) words.entry.now))) }
        ensures usage { result ≡ Err WordsError.Usage → are_options command (options_of (drop 1 (map (λ w. w.now) words.entry.now))) ≡ false }
    {
        let matches = matches_of(alloc, command, words)?;
        Ok(GivenOptions {
            command,
            words,
            matches,
        })
    }

    /// The value of the option of that name.
    pub(crate) fn value_of(&self, name: Name) -> Option<&'a str>
        requires takes { takes_word (takes name) ≡ true }
        ensures { option_copied result ≡ value_of name (options_in self.now) }
    {
        self.matches.get_str(name.text())
    }

    /// The values of the options of that name.
    fn values_of(&self, name: Name) -> &[&str]
        requires takes { takes_word (takes name) ≡ true }
        ensures { map (λ value. value.now) result.now ≡ values_named name (options_in self.now) }
    {
        self.matches.get_strs(name.text()).unwrap_or(&[])
    }

    /// The flag of that name stands among the options.
    pub(crate) fn has_flag(&self, name: Name) -> bool
        requires takes { takes name ≡ Takes.Nothing }
        ensures { result ≡ stands name (options_in self.now) }
    {
        self.matches.get_flag(name.text())
    }

    /// The number of the option of that name.
    #[tactic(auto, unfolding(crate::specs::Given::number_of))]
    pub(crate) fn number_of(&self, name: Name) -> Option<u64>
        requires takes { takes_word (takes name) ≡ true }
        ensures { result ≡ number_of name (options_in self.now) }
    {
        let text = self.value_of(name)?;
        name.takes().number(text)
    }

    #[tactic(auto, unfolding(crate::specs::Given::number_or))]
    pub(crate) fn number_or(&self, default: u64, name: Name) -> u64
        requires takes { takes_word (takes name) ≡ true }
        ensures { result ≡ number_or default name (options_in self.now) }
    {
        match self.number_of(name) {
            Some(number) => number,
            None => default,
        }
    }

    /// The text of the option of that name, which is copied.
    pub(crate) fn text_of(&self, alloc: Global, name: Name) -> Result<Option<Str>, NoMemory>
        requires takes { takes_word (takes name) ≡ true }
        ensures { IfOk result (λ text. text ≡ value_of name (options_in self.now)) }
    {
        match self.value_of(name) {
            Some(text) => Ok(Some(Str::of(alloc, text)?)),
            None => Ok(None),
        }
    }

    #[tactic(auto, unfolding(crate::specs::Given::value_or))]
    pub(crate) fn text_or(&self, alloc: Global, default: &str, name: Name) -> Result<Str, NoMemory>
        requires takes { takes_word (takes name) ≡ true }
        ensures { IfOk result (λ text. text ≡ value_or default.now name (options_in self.now)) }
    {
        match self.value_of(name) {
            Some(text) => Str::of(alloc, text),
            None => Str::of(alloc, default),
        }
    }

    /// The paths of the link, where the options name both.
    #[tactic(auto, unfolding(crate::specs::Commands::link_of, crate::specs::Names::takes))]
    pub(crate) fn link_of(&self, alloc: Global) -> Result<Option<LinkPaths>, NoMemory>
        ensures { IfOk result (λ link. link ≡ link_of (options_in self.now)) }
    {
        let frames = self.text_of(alloc, Name::FramesOut)?;
        let answers = self.text_of(alloc, Name::AnswersIn)?;
        match (frames, answers) {
            (Some(frames), Some(answers)) => Ok(Some(LinkPaths { frames, answers })),
            _ => Ok(None),
        }
    }

    /// Adds the sources of one kind, in the order of the words.
    pub(crate) fn add_sources(
        &self,
        alloc: Global,
        name: Name,
        kind: SourceKind,
        sources: &mut SourceNameList,
    ) -> Result<(), NoMemory>
        requires takes { takes_word (takes name) ≡ true }
        ensures { OnOk result (sources.new ≡ sources.old ++ sources_named name kind (options_in self.now)) }
    {
        for path in self.values_of(name) {
            let name = Str::of(alloc, path)?;
            sources.push(SourceName { kind, name })?;
        }
        Ok(())
    }

    /// What stands behind the options of that name is what it takes.
    fn values_fit(&self, name: Name) -> bool
        ensures { result ≡ values_fit (options_in self.now) name }
    {
        let takes = name.takes();
        !takes.takes_word()
            || self
                .values_of(name)
                .iter()
                .all(|value| takes.fits_value(value))
    }

    /// What stands behind the options of each of the names is what it takes.
    fn each_fits(&self, names: &[Name]) -> bool
        ensures { result ≡ list_all (values_fit (options_in self.now)) names.now }
    {
        names.iter().all(|name| self.values_fit(*name))
    }

    /// What stands behind each option is what its name takes.
    fn all_fit(&self) -> bool
        ensures { result ≡ all_fit (options_in self.now) }
    {
        self.each_fits(self.command.required()) && self.each_fits(self.command.optional())
    }

    /// The paths of the sources: of audit logs, then of lists of changes, then of table lines.
    #[tactic(auto, unfolding(crate::specs::Names::takes))]
    fn paths(&self, alloc: Global) -> Result<Vec<&str>, NoMemory>
        ensures { IfOk result (λ paths. map (λ path. path.now) paths.items ≡ paths_named (options_in self.now)) }
    {
        let mut paths = Vec::new(alloc);
        paths.extend_from_slice(self.values_of(Name::Audit))?;
        paths.extend_from_slice(self.values_of(Name::Changes))?;
        paths.extend_from_slice(self.values_of(Name::Tables))?;
        Ok(paths)
    }

    /// There are at most a thousand sources, and no two of them have one path.
    fn has_own_paths(&self, alloc: Global) -> Result<bool, NoMemory>
        ensures { IfOk result (λ own. own ≡ nat_le (length (paths_named (options_in self.now))) 1000 && are_apart (paths_named (options_in self.now))) }
    {
        let paths = self.paths(alloc)?;
        if MOST_SOURCES < paths.len() {
            return Ok(false);
        }
        are_apart(alloc, paths.as_slice())
    }

    /// An option of that name stands among them.
    fn stands(&self, name: Name) -> bool
        requires takes { takes_word (takes name) ≡ true }
        ensures { result ≡ stands name (options_in self.now) }
    {
        self.value_of(name).is_some()
    }

    /// A step stands beside a start alone, and both paths of a link stand or neither.
    #[tactic(auto, unfolding(crate::specs::Names::takes, crate::specs::Commands::has_whole_link))]
    fn are_paired(&self) -> bool
        ensures { result ≡ are_paired (options_in self.now) }
    {
        (self.stands(Name::Start) || !self.stands(Name::Step))
            && self.stands(Name::FramesOut) == self.stands(Name::AnswersIn)
    }

    /// The options are those of a run of the command.
    pub(crate) fn are_right(&self, alloc: Global) -> Result<bool, NoMemory>
        ensures { IfOk result (λ right. right ≡ are_options self.now.command (options_in self.now)) }
    {
        if !self.all_fit() || !self.are_paired() {
            return Ok(false);
        }
        self.has_own_paths(alloc)
    }
}

/// No two of the texts are the same.
fn are_apart(alloc: Global, texts: &[&str]) -> Result<bool, NoMemory>
    ensures { IfOk result (λ apart. apart ≡ are_apart (map (λ text. text.now) texts.now)) }
{
    let mut seen = HashSet::new(alloc);
    for text in texts {
        if !seen.insert(*text)? {
            return Ok(false);
        }
    }
    Ok(true)
}
