// A region of addresses in which modules are placed.
ghost use Rattle.std.specs.Prelude.{◌≡◌, option_map};
ghost use Rattle.kmod_words.specs.Numbers.{region_of, region_or_usual};

use km_names::{prefixed_hexadecimal, split_at_byte};
use module_region::Region;

/// Returns the region that a text states, or the usual one if there is no text.
pub(crate) fn region_or_usual(text: Option<&str>) -> Option<Region>
    ensures { result ≡ region_or_usual (option_map (λ t. t.now) text.entry) }
{
    match text {
        Some(text) => region_of(text.as_bytes()),
        None => Region::new(0xffff_ffff_c000_0000, 0x3f00_0000),
    }
}

/// Returns the region of a text `BASE:SIZE`.
#[tactic(auto, unfolding(crate::specs::Numbers::region_of))]
fn region_of(text: &[u8]) -> Option<Region>
    ensures { result ≡ region_of text.now }
{
    let (base, size) = split_at_byte(text, b':');
    let base = prefixed_hexadecimal(base)?;
    let size = prefixed_hexadecimal(size)?;
    Region::new(base, size)
}
