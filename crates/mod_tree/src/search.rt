// The search list of depmod.d(5).
ghost use Rattle.std.specs.Prelude.{◌≡◌, ◌≤◌, ◌⊎◌, ◌++◌, length, option_map, All, IfOk, IfErr};
ghost use Rattle.std.specs.Prelude.{OnOk};
ghost use Rattle.std.specs.Result.{result_err};
ghost use Rattle.km_names.specs.Limit.{file_limit};
ghost use Rattle.km_names.specs.Statements.{line_fault};
ghost use Rattle.mod_tree.specs.Search.{search_of, words_of_lines};

use km_names::{
    Blob, ConfFault, ConfFiles, List as Items, Name, Names, Statement, Texts, parse_files,
    split_word, words,
};
use std::alloc::{AllocError, Global};
use std::marker::Model;

/// The words that name the folders that are searched for modules first, in order. `built-in` means
/// the folders that no word names. depmod.d(5), "search".
pub type Search = Names;

/// Reads the search list of files of depmod.d(5): the words of all their `search` lines, in order,
/// or `updates built-in` if there is none. No file has more than 67,108,864 bytes.
///
/// # Errors
///
/// `BadLine` with the first line that states anything else, or that has no word after `search`; or
/// `Memory`.
pub fn parse_search(alloc: Global, files: &ConfFiles) -> Result<Search, ConfFault>
    requires { All (λ file. length file.bytes ≤ file_limit) files.now }
    ensures ok { IfOk result (λ search. search_of files.now ≡ Ok search) }
    ensures err { IfErr result (λ fault.
        (fault ≡ ConfFault.Memory)
        ⊎ (option_map line_fault (result_err (search_of files.now)) ≡ Some fault)) }
{
    let lines = parse_files(alloc, files)?;
    Ok(words_of_lines(alloc, &lines)?)
}

/// A line `search WORDS` of depmod.d(5). Contracts see it as its words, one or more.
#[derive(Drop)]
pub(crate) struct SearchLine {
    words: Texts,
}

impl Model for SearchLine {
    ghost use Rattle.std.specs.Prelude.{List, ℕ};

    ghost Value = { List (List ℕ) };

    ghost view = { λ line. line.words };
}

impl Statement for SearchLine {
    ghost use Rattle.mod_tree.specs.Search.{search_line};

    ghost read = { search_line };

    fn parse(alloc: Global, text: &[u8]) -> Result<Option<SearchLine>, AllocError> {
        let (command, rest) = split_word(text);
        if command != b"search".as_slice() {
            return Ok(None);
        }
        let words = words(alloc, rest)?;
        if words.is_empty() {
            return Ok(None);
        }
        Ok(Some(SearchLine { words }))
    }
}

/// Returns the words of all lines, in order, or the default list if there is no line.
fn words_of_lines(alloc: Global, lines: &Items<SearchLine>) -> Result<Search, AllocError>
    ensures { IfOk result (λ search. search ≡ words_of_lines lines.now) }
{
    let mut search = Search::new(alloc);
    if lines.is_empty() {
        search.push(Name::from_slice(alloc, b"updates")?)?;
        search.push(Name::from_slice(alloc, b"built-in")?)?;
    }
    for line in lines.as_slice() {
        push_words(alloc, &mut search, line.words.as_slice())?;
    }
    Ok(search)
}

/// Puts the words of a line at the end.
fn push_words(alloc: Global, search: &mut Search, words: &[Blob]) -> Result<(), AllocError>
    ensures { OnOk result (search.new ≡ search.old ++ words.now) }
{
    for word in words {
        search.push(Name::from_slice(alloc, word.as_bytes())?)?;
    }
    Ok(())
}
