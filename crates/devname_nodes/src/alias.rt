// Device nodes in aliases.
ghost use Rattle.std.specs.Prelude.{◌≡◌, option_map, map};
ghost use Rattle.km_names.specs.First.{first};
ghost use Rattle.km_names.specs.Prefix.{rest_after};
ghost use Rattle.devname_nodes.specs.Nodes.{device_of, number_of};

use crate::number::numbers;
use km_names::{Blob, is_graphic};

/// A device's kind and number.
#[derive(Clone, Copy)]
pub(crate) struct DeviceNumber {
    /// Whether it is the number of a block device. Otherwise it is the number of a character
    /// device.
    pub(crate) block: bool,
    pub(crate) major: u32,
    pub(crate) minor: u32,
}

/// Returns the first device that aliases name.
pub(crate) fn first_device(aliases: &[Blob]) -> Option<&[u8]>
    ensures { option_map (λ device. device.now) result ≡ first (map device_of aliases.now) }
{
    for text in aliases {
        if let Some(device) = device_of(text.as_bytes()) {
            return Some(device);
        }
    }
    None
}

/// Returns the first device number that aliases state.
pub(crate) fn first_number(aliases: &[Blob]) -> Option<DeviceNumber>
    ensures { result ≡ first (map number_of aliases.now) }
{
    for alias in aliases {
        if let Some(number) = number_of(alias.as_bytes()) {
            return Some(number);
        }
    }
    None
}

/// Returns the device that an alias names: what follows `devname:`, if it is a word of visible
/// characters.
fn device_of(alias: &[u8]) -> Option<&[u8]>
    ensures { option_map (λ device. device.now) result ≡ device_of alias.now }
{
    let device = after(b"devname:", alias)?;
    if is_graphic(device) {
        Some(device)
    } else {
        None
    }
}

/// Returns the device number that an alias states as `char-major-M-N` or `block-major-M-N`.
fn number_of(alias: &[u8]) -> Option<DeviceNumber>
    ensures { result ≡ number_of alias.now }
{
    if let Some(text) = after(b"char-major-", alias) {
        let (major, minor) = numbers(text)?;
        return Some(DeviceNumber {
            block: false,
            major,
            minor,
        });
    }
    let text = after(b"block-major-", alias)?;
    let (major, minor) = numbers(text)?;
    Some(DeviceNumber {
        block: true,
        major,
        minor,
    })
}

/// Returns what follows a prefix, if the text begins with it.
fn after<'a>(prefix: &[u8], text: &'a [u8]) -> Option<&'a [u8]>
    ensures { option_map (λ rest. rest.now) result ≡ rest_after prefix.now text.now }
{
    if text.starts_with(prefix) {
        Some(&text[prefix.len()..])
    } else {
        None
    }
}
