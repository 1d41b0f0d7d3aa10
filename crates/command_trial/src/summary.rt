// What a trial reports.
ghost use Rattle.std.specs.Prelude.{◌≡◌, ◌++◌, IfOk, List, OnOk, ℕ};
ghost use Rattle.std.specs.Fmt.{decimal};
ghost use Rattle.std.specs.Option.{option_to_list};
ghost use Rattle.sha2.specs.Hashers.{Holds256};
ghost use Rattle.sha2.specs.Sha256.{sha256};
ghost use Rattle.outside_calls.specs.Contents.{rest_after};
ghost use Rattle.command_trial.specs.Summary.{bytes_at, dependencies_left, image_path, images_of};
ghost use Rattle.command_trial.specs.Summary.{loaded, stated, summary};

use crate::lines::{count_lines, count_paths};
use crate::words::IMAGES;
use km_names::{Blob, PathText, first_line, join, split_word};
use outside_calls::MemFiles;
use sha2::{Digest, Sha256};
use std::alloc::{AllocError, Global};

/// What a line of a loaded module begins with.
const LOADED: &[u8] = b"loaded ";

/// Returns how many dependencies the modules.dep of the made tree lists.
#[tactic(auto, unfolding(crate::specs::Summary::dependencies_left))]
pub(crate) fn count_dependencies(alloc: Global, files: &MemFiles) -> Result<usize, AllocError>
    ensures { IfOk result (λ count. count ≡ dependencies_left files.now.contents) }
{
    let path = PathText::from_slice(alloc, b"/t/lib/modules/trial/modules.dep")?;
    count_paths(alloc, bytes_at(files, &path))
}

/// Returns the five lines of a trial of this many modules, with this many dependencies, that left
/// these files and this output of modprobe.
#[tactic(auto, unfolding(crate::specs::Summary::summary))]
pub(crate) fn summary(
    alloc: Global,
    modules: u32,
    dependencies: usize,
    files: &MemFiles,
    output: &[u8],
) -> Result<Blob, AllocError>
    ensures { IfOk result
        (λ text. text
        ≡ summary modules dependencies
        (record { files = files.now.contents; out = output.now })) }
{
    let digest = digest_of_images(alloc, files, output)?;
    let mut text = Blob::new(alloc);
    push_count(alloc, &mut text, b"modules", modules as usize)?;
    push_count(alloc, &mut text, b"dependencies", dependencies)?;
    push_count(
        alloc,
        &mut text,
        b"planned",
        count_lines(output, b"insmod "),
    )?;
    push_count(alloc, &mut text, b"loaded", count_lines(output, LOADED))?;
    push_stated(
        &mut text,
        b"images",
        hex::encode(alloc, digest.as_slice())?.as_bytes(),
    )?;
    Ok(text)
}

/// Returns the bytes of the file at the path, or none if nothing is there.
fn bytes_at<'a>(files: &'a MemFiles, path: &PathText) -> &'a [u8]
    ensures { result.now ≡ bytes_at path.now files.now.contents }
{
    files.get(path).unwrap_or_default()
}

/// Returns the digest of the images, one after the other, of the modules that an output of modprobe
/// says were loaded.
fn digest_of_images(alloc: Global, files: &MemFiles, output: &[u8]) -> Result<[u8; 32], AllocError>
    ensures { IfOk result
        (λ digest. digest ≡ sha256 (images_of files.now.contents (loaded output.now))) }
{
    let mut hasher = Sha256::new();
    let mut left = output;
    while !left.is_empty() {
        let (line, next) = first_line(left);
        add_image(alloc, &mut hasher, files, line)?;
        left = next;
    }
    Ok(hasher.finalize())
}

/// Puts a line that states a count at the end.
fn push_count(alloc: Global, text: &mut Blob, what: &[u8], count: usize) -> Result<(), AllocError>
    ensures { OnOk result (text.new ≡ text.old ++ stated what.now (decimal count)) }
{
    let shown = format!(in alloc; "{count}")?;
    push_stated(text, what, shown.as_bytes())
}

/// Puts a line that states a value at the end.
fn push_stated(text: &mut Blob, what: &[u8], shown: &[u8]) -> Result<(), AllocError>
    ensures { OnOk result (text.new ≡ text.old ++ stated what.now shown.now) }
{
    text.extend(what)?;
    text.push(b' ')?;
    text.extend(shown)?;
    text.push(b'\n')
}

/// Adds to a digest the image of the module that a line says was loaded. Other lines add nothing.
fn add_image(
    alloc: Global,
    hasher: &mut Sha256,
    files: &MemFiles,
    line: &[u8],
) -> Result<(), AllocError>
    ensures { OnOk result ((before : List ℕ) → Holds256 hasher.old before
        → Holds256 hasher.new
        (before ++ images_of files.now.contents
        (option_to_list (rest_after LOADED.now line.now)))) }
{
    if let Some(rest) = line.strip_prefix(LOADED) {
        let path = image_path(alloc, rest)?;
        hasher.update(bytes_at(files, &path));
    }
    Ok(())
}

/// Returns the path of the image of a module, by what follows `loaded ` in its line.
fn image_path(alloc: Global, rest: &[u8]) -> Result<PathText, AllocError>
    ensures { IfOk result (λ path. path ≡ image_path rest.now) }
{
    let (name, _) = split_word(rest);
    let folder = PathText::from_slice(alloc, IMAGES.as_bytes())?;
    let mut file = Blob::from_slice(alloc, name)?;
    file.extend(b".img")?;
    join(alloc, &folder, file.as_bytes())
}
