// What follows a load: its images are put, and their lines are written.
ghost use Rattle.std.specs.Prelude.{◌≡◌, ◌++◌, codes, length, IfOk, option_copied};
ghost use Rattle.km_names.specs.Path.{path_below};
ghost use Rattle.km_course.specs.FollowsOn.{FollowsOnFiles, FollowsOnFilesAndOut, Returns};
ghost use Rattle.image_layout.specs.Offsets.{image_size};
ghost use Rattle.model_loader.specs.declared.entry.Entry.{Entry};
ghost use Rattle.stages_loads.specs.Loads.{IsNewest, entry_line, params_line, params_outcome};
ghost use Rattle.stages_loads.specs.Loads.{puts_image, shows_image, shows_load, shows_params};

use km_course::{Refusal, Stop, put, say};
use km_names::{Blob, Name, PathText, join};
use model_loader::{LoadedModule, Machine};
use module_facts::Module;
use outside_calls::{Out, Writes};
use param_apply::{ParamFault, Params, apply_params};
use sha2::{Digest, Sha256};
use std::alloc::{AllocError, Global};

/// What happens to the images of modules that are loaded.
#[derive(Drop)]
pub struct Images {
    /// The folder into which they are put, if there is one.
    pub folder: Option<PathText>,
    /// Whether the options of each module are written into a copy of its image.
    pub params: bool,
}

/// Shows the image of the last loaded module, which has these options. If they are asked for, the
/// parameters are written into a copy of it, which is shown too. modprobe(8).
pub(crate) fn show_load<F: Writes, O: Out>(
    alloc: Global,
    images: &Images,
    machine: &Machine,
    module: &Module,
    options: &Blob,
    files: &mut F,
    out: &mut O,
) -> Result<(), Stop>
    requires { (e : Entry) × IsNewest machine.now e
        × (length e.image ≡ image_size «module».now.object.sections) }
    ensures { (e : Entry) → IsNewest machine.now e →
        FollowsOnFilesAndOut (shows_load images.now «module».now options.now e)
        F.seen files.old files.new O.seen out.old out.new result }
{
    let last = machine.module_count() - 1;
    let loaded = machine.module_at(last);
    let name = loaded.name.as_bytes();
    let image = machine.image_at(last);
    let line = entry_line(alloc, b"loaded", loaded, image)?;
    let folder = images.folder.as_ref();
    show_image(alloc, folder, name, image, &line, files, out)?;
    if images.params {
        show_params(alloc, folder, module, options, loaded, image, files, out)
    } else {
        Ok(())
    }
}

/// Returns the line of a module of the machine with this image. It begins with a word, followed by
/// the name, the address of the image in 16 hexadecimal digits, its size in bytes, and its SHA-256
/// digest. FIPS 180-4.
#[tactic(auto, unfolding(crate::specs::Loads::entry_line))]
pub fn entry_line(
    alloc: Global,
    word: &[u8],
    loaded: &LoadedModule,
    image: &[u8],
) -> Result<Blob, AllocError>
    ensures { IfOk result (λ line. line ≡ entry_line word.now loaded.now image.now) }
{
    let base = hex::encode(alloc, loaded.base.to_be_bytes().as_slice())?;
    let digest = hex::encode(alloc, Sha256::digest(image).as_slice())?;
    let size = loaded.size;
    let rest = format!(in alloc; " {base} {size} {digest}\n")?;
    let name = loaded.name.as_bytes();
    Blob::concat(alloc, &[word, b" ", name, rest.as_bytes()])
}

/// Puts an image into the folder for images, if there is one, and then writes its line.
fn show_image<F: Writes, O: Out>(
    alloc: Global,
    folder: Option<&PathText>,
    name: &[u8],
    image: &[u8],
    line: &Blob,
    files: &mut F,
    out: &mut O,
) -> Result<(), Stop>
    ensures { FollowsOnFilesAndOut
        (shows_image (option_copied folder.entry)
        (record { name = name.now; image = image.now; line = line.now }))
        F.seen files.old files.new O.seen out.old out.new result }
{
    put_image(alloc, folder, name, image, files)?;
    say(out, line.as_bytes())
}

/// Writes the options of a loaded module into a copy of its image, and shows that.
fn show_params<F: Writes, O: Out>(
    alloc: Global,
    folder: Option<&PathText>,
    module: &Module,
    options: &Blob,
    loaded: &LoadedModule,
    image: &[u8],
    files: &mut F,
    out: &mut O,
) -> Result<(), Stop>
    requires { length image.now ≡ image_size «module».now.object.sections }
    ensures { FollowsOnFilesAndOut
        (shows_params (option_copied folder.entry) «module».now options.now loaded.now image.now)
        F.seen files.old files.new O.seen out.old out.new result }
{
    let params = params_in(alloc, module, options, loaded, image)?;
    let name = params_name(alloc, &loaded.name)?;
    let line = params_line(alloc, &loaded.name, &params)?;
    show_image(
        alloc,
        folder,
        name.as_bytes(),
        params.image.as_bytes(),
        &line,
        files,
        out,
    )
}

/// Puts an image into the folder for images, if there is one, under a name.
fn put_image<F: Writes>(
    alloc: Global,
    folder: Option<&PathText>,
    name: &[u8],
    image: &[u8],
    files: &mut F,
) -> Result<(), Stop>
    ensures { FollowsOnFiles (puts_image (option_copied folder.entry) name.now image.now)
        F.seen files.old files.new result }
{
    match folder {
        None => Ok(()),
        Some(folder) => {
            let path = image_path(alloc, folder, name)?;
            put(alloc, files, path, image)
        }
    }
}

/// Returns the image with the options of a loaded module in it, or the refusal of the options.
fn params_in(
    alloc: Global,
    module: &Module,
    options: &Blob,
    loaded: &LoadedModule,
    image: &[u8],
) -> Result<Params, Stop>
    requires { length image.now ≡ image_size «module».now.object.sections }
    ensures { Returns (params_outcome «module».now options.now loaded.now image.now) result }
{
    match apply_params(alloc, module, loaded.base, image, options.as_bytes()) {
        Ok(params) => Ok(params),
        Err(fault) => match fault {
            ParamFault::Memory => Err(Stop::Memory),
            ParamFault::BadParamTable { .. }
            | ParamFault::UnknownParamType { .. }
            | ParamFault::BadValue { .. }
            | ParamFault::BadParamPlace { .. } => {
                let text = fault.text(alloc)?;
                let name = Name::from_slice(alloc, loaded.name.as_bytes())?;
                Err(Stop::from(Refusal::ParamsRefused { name, text }))
            }
        },
    }
}

/// Returns the name under which the image with the parameters of a module is put.
fn params_name(alloc: Global, name: &Name) -> Result<Blob, AllocError>
    ensures { IfOk result (λ text. text ≡ name.now ++ codes ".params") }
{
    Blob::concat(alloc, &[name.as_bytes(), b".params"])
}

/// Returns the line of the parameters of a module of this name: how many the options name, and the
/// SHA-256 digest of the image. FIPS 180-4.
#[tactic(auto, unfolding(crate::specs::Loads::params_line))]
fn params_line(alloc: Global, name: &Name, params: &Params) -> Result<Blob, AllocError>
    ensures { IfOk result (λ line. line ≡ params_line name.now params.now.count params.now.image) }
{
    let digest = hex::encode(alloc, Sha256::digest(params.image.as_bytes()).as_slice())?;
    let count = params.count;
    let rest = format!(in alloc; " {count} {digest}\n")?;
    Blob::concat(alloc, &[b"params ", name.as_bytes(), rest.as_bytes()])
}

/// Returns the path of an image of this name in the folder for images.
fn image_path(alloc: Global, folder: &PathText, name: &[u8]) -> Result<PathText, AllocError>
    ensures { IfOk result (λ path. path ≡ path_below folder.now (name.now ++ codes ".img")) }
{
    let file = Blob::concat(alloc, &[name, b".img"])?;
    join(alloc, folder, file.as_bytes())
}
