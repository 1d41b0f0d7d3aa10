// The words of the commands inside a trial.
ghost use Rattle.std.specs.Prelude.{◌≡◌, IfOk, map};
ghost use Rattle.tree_gen.specs.Trial.{name_of};
ghost use Rattle.command_trial.specs.Words.{depmod_words, modprobe_words};

use km_names::{List, Word};
use std::alloc::{AllocError, Global};
use tree_gen::{ROOT, SYMVERS_PATH, SYSTEM_MAP_PATH, VERSION};

/// The folder into which the modprobe inside puts images.
pub(crate) const IMAGES: &str = "/t/img";

/// The words for the depmod that indexes the made tree.
const DEPMOD: [&str; 5] = ["-b", ROOT, "-E", SYMVERS_PATH, VERSION];

/// The options for the modprobe that loads its modules.
const MODPROBE: [&str; 11] = [
    "-a",
    "-d",
    ROOT,
    "-S",
    VERSION,
    "--system-map",
    SYSTEM_MAP_PATH,
    "--symvers",
    SYMVERS_PATH,
    "--image",
    IMAGES,
];

/// Returns the words for the depmod that indexes the made tree.
pub(crate) fn depmod_words(alloc: Global) -> Result<List<Word>, AllocError>
    ensures { IfOk result (λ words. words ≡ depmod_words) }
{
    words_of(alloc, &DEPMOD)
}

/// Returns the words for the modprobe that loads this many of its modules.
pub(crate) fn modprobe_words(alloc: Global, count: u32) -> Result<List<Word>, AllocError>
    ensures { IfOk result (λ words. words ≡ modprobe_words count) }
{
    let mut words = words_of(alloc, &MODPROBE)?;
    for number in 0..count {
        words.push(module_name(alloc, number)?)?;
    }
    Ok(words)
}

/// Returns the words of these texts.
fn words_of(alloc: Global, texts: &[&str]) -> Result<List<Word>, AllocError>
    ensures { IfOk result (λ words. words ≡ map (λ text. text.now) texts.now) }
{
    let mut words = List::new(alloc);
    for text in texts {
        words.push(Word::from_text(alloc, text)?)?;
    }
    Ok(words)
}

/// Returns the name of the module of this number, in four digits.
fn module_name(alloc: Global, number: u32) -> Result<Word, AllocError>
    ensures { IfOk result (λ word. word ≡ name_of number) }
{
    let thousands = number / 1000 % 10;
    let hundreds = number / 100 % 10;
    let tens = number / 10 % 10;
    let ones = number % 10;
    let name = format!(in alloc; "m{thousands}{hundreds}{tens}{ones}")?;
    Word::from_text(alloc, name.as_str())
}
