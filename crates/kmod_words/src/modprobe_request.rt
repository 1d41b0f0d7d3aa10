// What the words after `modprobe` ask for.
ghost use Rattle.std.specs.Prelude.{◌≡◌, IfOk, Option, T, codes, is_some, option_map, unwrap_or};
ghost use Rattle.clap.specs.Words.{found_of, rows_of};
ghost use Rattle.kmod_words.specs.Understood.{value_of};
ghost use Rattle.kmod_words.specs.Modes.{given_map};
ghost use Rattle.kmod_words.specs.Modprobe.{modprobe_request, modprobe_of};
ghost use Rattle.kmod_words.specs.Modprobe.{mode_asked, mode_by_flags, options_go, if_passed};
ghost use Rattle.kmod_words.specs.Modprobe.{chosen, choice_parts, region_asked};

use crate::arguments::Argument;
use crate::matches::{bytes_of, bytes_or, is_given, is_version, value_of, words_of};
use crate::modprobe::{Mode, ModprobeWords};
use crate::region::region_or_usual;
use crate::request::{Request, read_request};
use clap::ArgMatches;
use km_names::{Name, Names, PathText, Word};
use module_region::Region;
use std::alloc::{AllocError, Global};

const ARGUMENTS: [Argument; 17] = [
    Argument::Flag('a', "all"),
    Argument::Flag('b', "use-blacklist"),
    Argument::Flag('i', "ignore-install"),
    Argument::Flag('n', "dry-run"),
    Argument::Flag('D', "show-depends"),
    Argument::Flag('R', "resolve-alias"),
    Argument::Flag('r', "remove"),
    Argument::Valued('d', "dirname"),
    Argument::Required('S', "set-version"),
    Argument::Valued('C', "config"),
    Argument::ValuedByName("loaded"),
    Argument::ValuedByName("system-map"),
    Argument::ValuedByName("symvers"),
    Argument::ValuedByName("region"),
    Argument::ValuedByName("image"),
    Argument::FlagByName("params"),
    Argument::Words("words"),
];

impl ModprobeWords {
    /// Returns the region in which modules are placed.
    pub fn region(&self) -> Region
        ensures { result ≡ region_asked self.now }
    {
        Region {
            base: self.region_base,
            size: self.region_size,
        }
    }

    /// Copies the path of the System.map, which a load or a removal has.
    pub fn given_map(&self, alloc: Global) -> Result<PathText, AllocError>
        requires given { T (is_some self.now.system_map) }
        ensures { IfOk result (λ path. (given : T (is_some self.now.system_map))
            → path ≡ given_map self.now.system_map given) }
    {
        let path = self.system_map.as_ref().unwrap();
        PathText::from_slice(alloc, path.as_bytes())
    }
}

/// Reads what the words after `modprobe` ask for. It is `None` exactly if they aren't understood.
/// modprobe(8).
#[tactic(auto, unfolding(crate::specs::Modprobe::modprobe_command))]
pub fn read_modprobe(alloc: Global, words: &[Word]) -> Result<Option<ModprobeWords>, AllocError>
    ensures { IfOk result (λ asked. asked ≡ modprobe_request words.now) }
{
    read_request(alloc, "modprobe", &ARGUMENTS, words)
}

impl Request for ModprobeWords {
    ghost use Rattle.kmod_words.specs.Modprobe.{modprobe_asked};

    ghost asked = { modprobe_asked };

    fn from_matches(
        alloc: Global,
        matches: &ArgMatches<'_>,
    ) -> Result<Option<ModprobeWords>, AllocError> {
        match choice_of(matches) {
            Some(choice) => asked_by(alloc, matches, &choice),
            None => Ok(None),
        }
    }
}

/// Returns what is asked for by this choice, if the options go with its mode.
fn asked_by(
    alloc: Global,
    matches: &ArgMatches<'_>,
    choice: &Choice<'_>,
) -> Result<Option<ModprobeWords>, AllocError>
    ensures { IfOk result (λ asked. asked
        ≡ if_passed (options_go (rows_of (found_of matches.now)) choice.now.mode)
        (modprobe_of (rows_of (found_of matches.now)) choice.now.mode choice.now.version.now
        choice.now.region)) }
{
    if options_go(matches, choice.mode) {
        Ok(Some(words_for(alloc, matches, choice)?))
    } else {
        Ok(None)
    }
}

/// The choice of what the words leave open or may get wrong.
#[derive(Clone, Copy)]
struct Choice<'a> {
    mode: Mode,
    version: &'a str,
    region: Region,
}

/// Returns the choice that the matches make.
#[tactic(auto, unfolding(crate::specs::Modprobe::chosen))]
fn choice_of<'a>(matches: &ArgMatches<'a>) -> Option<Choice<'a>>
    ensures { option_map choice_parts result ≡ chosen (rows_of (found_of matches.now)) }
{
    let mode = mode_asked(matches)?;
    let version = value_of(matches, "set-version")?;
    let region = region_or_usual(value_of(matches, "region"))?;
    if is_version(version) {
        Some(Choice {
            mode,
            version,
            region,
        })
    } else {
        None
    }
}

/// Returns the mode that the flags ask for.
fn mode_asked(matches: &ArgMatches<'_>) -> Option<Mode>
    ensures { result ≡ mode_asked (rows_of (found_of matches.now)) }
{
    mode_by_flags(
        is_given(matches, "dry-run"),
        is_given(matches, "show-depends"),
        is_given(matches, "resolve-alias"),
        is_given(matches, "remove"),
    )
}

fn mode_by_flags(
    dry_run: bool,
    show_depends: bool,
    resolve_alias: bool,
    remove: bool,
) -> Option<Mode>
    ensures { result ≡ mode_by_flags dry_run show_depends resolve_alias remove }
{
    match (dry_run, show_depends, resolve_alias, remove) {
        (false, false, false, false) => Some(Mode::Load),
        (true, false, false, false) => Some(Mode::DryRun),
        (false, true, false, false) => Some(Mode::ShowDepends),
        (false, false, true, false) => Some(Mode::ResolveAlias),
        (dry_run, false, false, true) => Some(Mode::Remove { dry_run }),
        _ => None,
    }
}

/// Returns whether the mode has the addresses that it needs, and no option that isn't for it.
fn options_go(matches: &ArgMatches<'_>, mode: Mode) -> bool
    ensures { result ≡ options_go (rows_of (found_of matches.now)) mode }
{
    let has_map = value_of(matches, "system-map").is_some();
    let has_image = value_of(matches, "image").is_some();
    let params = is_given(matches, "params");
    match mode {
        Mode::Load => has_map,
        Mode::DryRun | Mode::ShowDepends | Mode::ResolveAlias => !params,
        Mode::Remove { .. } => has_map && !(has_image || params),
    }
}

/// Returns what is asked for, by this choice.
fn words_for(
    alloc: Global,
    matches: &ArgMatches<'_>,
    choice: &Choice<'_>,
) -> Result<ModprobeWords, AllocError>
    requires fits { T (options_go (rows_of (found_of matches.now)) choice.now.mode) }
    ensures { IfOk result (λ words.
        (fits : T (options_go (rows_of (found_of matches.now)) choice.now.mode))
        → words
        ≡ modprobe_of (rows_of (found_of matches.now)) choice.now.mode choice.now.version.now
        choice.now.region fits) }
{
    let version = Name::from_slice(alloc, choice.version.as_bytes())?;
    let words = words_of(alloc, matches, "words")?;
    let plan = plan_paths(alloc, matches)?;
    let load = load_paths(alloc, matches)?;
    Ok(ModprobeWords {
        mode: choice.mode,
        all: is_given(matches, "all"),
        use_blacklist: is_given(matches, "use-blacklist"),
        ignore_install: is_given(matches, "ignore-install"),
        dirname: plan.dirname,
        version,
        config: plan.config,
        loaded: plan.loaded,
        system_map: load.system_map,
        symvers: load.symvers,
        region_base: choice.region.base,
        region_size: choice.region.size,
        image: load.image,
        params: is_given(matches, "params"),
        words,
    })
}

/// The paths that every mode reads.
#[derive(Drop)]
struct PlanPaths {
    dirname: PathText,
    config: Option<PathText>,
    loaded: Option<PathText>,
}

/// Returns the paths that every mode reads.
fn plan_paths(alloc: Global, matches: &ArgMatches<'_>) -> Result<PlanPaths, AllocError>
    ensures dirname { IfOk result (λ paths. paths.dirname
        ≡ unwrap_or (value_of (codes "dirname") (rows_of (found_of matches.now))) (codes "/")) }
    ensures config { IfOk result
        (λ paths. paths.config ≡ value_of (codes "config") (rows_of (found_of matches.now))) }
    ensures loaded { IfOk result
        (λ paths. paths.loaded ≡ value_of (codes "loaded") (rows_of (found_of matches.now))) }
{
    let dirname = bytes_or(alloc, matches, "dirname", b"/")?;
    let config = bytes_of(alloc, matches, "config")?;
    let loaded = bytes_of(alloc, matches, "loaded")?;
    Ok(PlanPaths {
        dirname,
        config,
        loaded,
    })
}

/// The paths that only a load or a removal needs.
#[derive(Drop)]
struct LoadPaths {
    system_map: Option<PathText>,
    symvers: Option<PathText>,
    image: Option<PathText>,
}

/// Returns the paths that only a load or a removal needs.
fn load_paths(alloc: Global, matches: &ArgMatches<'_>) -> Result<LoadPaths, AllocError>
    ensures system_map { IfOk result
        (λ paths. paths.system_map
        ≡ value_of (codes "system-map") (rows_of (found_of matches.now))) }
    ensures symvers { IfOk result
        (λ paths. paths.symvers ≡ value_of (codes "symvers") (rows_of (found_of matches.now))) }
    ensures image { IfOk result
        (λ paths. paths.image ≡ value_of (codes "image") (rows_of (found_of matches.now))) }
{
    let system_map = bytes_of(alloc, matches, "system-map")?;
    let symvers = bytes_of(alloc, matches, "symvers")?;
    let image = bytes_of(alloc, matches, "image")?;
    Ok(LoadPaths {
        system_map,
        symvers,
        image,
    })
}
