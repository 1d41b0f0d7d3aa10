ghost use Rattle.std.specs.Prelude.{◌≡◌, IfOk, Option};
ghost use Rattle.clap.specs.Words.{found_of, rows_of};
ghost use Rattle.kmod_words.specs.Depmod.{depmod_request, depmod_of, has_two_kernels};

use crate::arguments::Argument;
use crate::matches::{bytes_of, bytes_or, is_given, is_version, value_of};
use crate::request::{Request, read_request};
use clap::ArgMatches;
use km_names::{Name, PathText, Word};
use std::alloc::{AllocError, Global};

const ARGUMENTS: [Argument; 10] = [
    Argument::Flag('a', "all"),
    Argument::Flag('n', "dry-run"),
    Argument::Flag('e', "errsyms"),
    Argument::Valued('b', "basedir"),
    Argument::Valued('o', "outdir"),
    Argument::Valued('C', "config"),
    Argument::Valued('F', "filesyms"),
    Argument::Valued('E', "symvers"),
    Argument::FlagByName("extra"),
    Argument::Word("version"),
];

/// What `depmod` is asked for. All modules are always indexed, so `-a` asks for nothing.
#[derive(Debug, Drop)]
pub struct DepmodWords {
    /// Whether the text files are to be printed, and nothing to be replaced.
    pub dry_run: bool,
    /// Whether to warn of symbols that nothing exports, and of versions that differ.
    pub errsyms: bool,
    /// Whether to write the index of built-in aliases and the list of device nodes too.
    pub extra: bool,
    /// The root below which the modules are.
    pub basedir: PathText,
    /// The root below which the files are written.
    pub outdir: PathText,
    /// The file or folder of configuration in place of the usual folders.
    pub config: Option<PathText>,
    /// The System.map of the kernel.
    pub filesyms: Option<PathText>,
    /// The Module.symvers of the kernel. At most one of the two is given.
    pub symvers: Option<PathText>,
    /// The kernel's version, which names the folder of its modules.
    pub version: Name,
}

/// Reads what the words after `depmod` ask for. It is `None` exactly if they aren't understood.
/// depmod(8).
#[tactic(auto, unfolding(crate::specs::Depmod::depmod_command))]
pub fn read_depmod(alloc: Global, words: &[Word]) -> Result<Option<DepmodWords>, AllocError>
    ensures { IfOk result (λ asked. asked ≡ depmod_request words.now) }
{
    read_request(alloc, "depmod", &ARGUMENTS, words)
}

impl Request for DepmodWords {
    ghost use Rattle.kmod_words.specs.Depmod.{depmod_asked};

    ghost asked = { depmod_asked };

    #[tactic(auto, unfolding(crate::specs::Depmod::depmod_asked))]
    fn from_matches(
        alloc: Global,
        matches: &ArgMatches<'_>,
    ) -> Result<Option<DepmodWords>, AllocError> {
        let Some(version) = value_of(matches, "version") else {
            return Ok(None);
        };
        if has_two_kernels(matches) || !is_version(version) {
            return Ok(None);
        }
        Ok(Some(words_for(alloc, matches, version)?))
    }
}

/// Returns whether both files of the kernel are given.
fn has_two_kernels(matches: &ArgMatches<'_>) -> bool
    ensures { result ≡ has_two_kernels (rows_of (found_of matches.now)) }
{
    value_of(matches, "filesyms").is_some() && value_of(matches, "symvers").is_some()
}

/// Returns what is asked for with a version.
fn words_for(
    alloc: Global,
    matches: &ArgMatches<'_>,
    version: &str,
) -> Result<DepmodWords, AllocError>
    ensures { IfOk result
        (λ words. words ≡ depmod_of (rows_of (found_of matches.now)) version.now) }
{
    let version = Name::from_slice(alloc, version.as_bytes())?;
    let basedir: PathText = bytes_or(alloc, matches, "basedir", b"/")?;
    let outdir = bytes_or(alloc, matches, "outdir", basedir.as_bytes())?;
    let config = bytes_of(alloc, matches, "config")?;
    let filesyms = bytes_of(alloc, matches, "filesyms")?;
    let symvers = bytes_of(alloc, matches, "symvers")?;
    Ok(DepmodWords {
        dry_run: is_given(matches, "dry-run"),
        errsyms: is_given(matches, "errsyms"),
        extra: is_given(matches, "extra"),
        basedir,
        outdir,
        config,
        filesyms,
        symvers,
        version,
    })
}
