ghost use Rattle.std.specs.Prelude.{◌≡◌};
ghost use Rattle.std.specs.Option.{option_map};
ghost use Rattle.outside_calls.specs.Contents.{rest_after};
ghost use Rattle.outside_calls.specs.Listing.{kind_of, test_of, passing};

use crate::CallKind;

/// What is listed of a folder.
#[derive(Clone, Copy, Debug, PartialEq, Eq)]
pub enum Listing {
    /// The names of the configuration files in it.
    Conf,
    /// The paths of all files below it.
    Tree,
}

impl Listing {
    /// Returns the kind of calls that list in this way.
    pub(crate) fn kind(self) -> CallKind
        ensures { result ≡ kind_of self }
    {
        match self {
            Listing::Conf => CallKind::ListConf,
            Listing::Tree => CallKind::ListTree,
        }
    }

    /// Returns whether a path's rest, which follows a folder and a slash, is listed.
    pub fn lists(self, rest: &[u8]) -> bool
        ensures { result ≡ test_of self rest.now }
    {
        match self {
            Listing::Conf => rest.ends_with(b".conf") && !rest.contains(&b'/'),
            Listing::Tree => !rest.is_empty(),
        }
    }

    /// Returns the rest of the path after the prefix, a folder and a slash, if it is listed.
    pub(crate) fn rest<'a>(self, prefix: &[u8], path: &'a [u8]) -> Option<&'a [u8]>
        ensures { option_map (λ rest. rest.now) result
            ≡ passing (test_of self) (rest_after prefix.now path.now) }
    {
        match path.strip_prefix(prefix) {
            Some(rest) if self.lists(rest) => Some(rest),
            _ => None,
        }
    }
}
