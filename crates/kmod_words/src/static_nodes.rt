ghost use Rattle.std.specs.Prelude.{◌≡◌, IfOk, codes};
ghost use Rattle.std.specs.Str.{bytes_eq};
ghost use Rattle.kmod_words.specs.StaticNodes.{static_nodes_request};

use crate::arguments::Argument;
use crate::matches::{bytes_or, is_version, value_of};
use crate::request::{Request, read_request};
use clap::ArgMatches;
use km_names::{Name, PathText, Word};
use std::alloc::{AllocError, Global};

const ARGUMENTS: [Argument; 3] = [
    Argument::ValuedByLetter('d', "dirname"),
    Argument::RequiredByLetter('S', "set-version"),
    Argument::Required('f', "format"),
];

/// What `static-nodes` is asked for.
#[derive(Debug, Drop)]
pub struct StaticNodesWords {
    /// The root below which the kernel's modules are.
    pub dirname: PathText,
    /// The kernel's version, which names the folder of its modules.
    pub version: Name,
}

/// Reads what the words after `static-nodes` ask for: `-d ROOT -S VERSION --format devname`. It is
/// `None` exactly if they aren't understood, as no other format is. kmod(8), "static-nodes"; `-d`
/// and `-S` are this project's own.
#[tactic(auto, unfolding(crate::specs::StaticNodes::static_nodes_command))]
pub fn read_static_nodes(
    alloc: Global,
    words: &[Word],
) -> Result<Option<StaticNodesWords>, AllocError>
    ensures { IfOk result (λ asked. asked ≡ static_nodes_request words.now) }
{
    read_request(alloc, "static-nodes", &ARGUMENTS, words)
}

impl Request for StaticNodesWords {
    ghost use Rattle.kmod_words.specs.StaticNodes.{static_nodes_asked};

    ghost asked = { static_nodes_asked };

    #[tactic(auto, unfolding(crate::specs::StaticNodes::static_nodes_asked))]
    fn from_matches(
        alloc: Global,
        matches: &ArgMatches<'_>,
    ) -> Result<Option<StaticNodesWords>, AllocError> {
        let Some(version) = value_of(matches, "set-version") else {
            return Ok(None);
        };
        let Some(format) = value_of(matches, "format") else {
            return Ok(None);
        };
        if !is_version(version) || !is_devname(format) {
            return Ok(None);
        }
        Ok(Some(StaticNodesWords {
            dirname: bytes_or(alloc, matches, "dirname", b"/")?,
            version: Name::from_slice(alloc, version.as_bytes())?,
        }))
    }
}

/// Returns whether a format is the one that is understood.
fn is_devname(format: &str) -> bool
    ensures { result ≡ bytes_eq format.now (codes "devname") }
{
    format.as_bytes() == b"devname".as_slice()
}
