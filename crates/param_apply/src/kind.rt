// The types of parameters. The kernel's include/linux/moduleparam.h, module_param.

ghost use Rattle.std.specs.Prelude.{◌≡◌, ◌<◌, ◌≤◌, ◌^◌, option_copied, IfSome};
ghost use Rattle.std.specs.Str.{bytes_eq};
ghost use Rattle.param_apply.specs.Numbers.{bytes_in, numbers_in};
ghost use Rattle.param_apply.specs.Kinds.{kind_of, number_of, stated, width_of};

use crate::number::{signed, truth, unsigned};

/// The number of bytes of a number.
#[derive(Clone, Copy)]
pub(crate) enum Width {
    /// 1.
    One,
    /// 2.
    Two,
    /// 4.
    Four,
    /// 8.
    Eight,
}

impl Width {
    /// Returns the number of bytes.
    pub(crate) fn bytes(self) -> usize
        ensures { result ≡ bytes_in self }
    {
        match self {
            Width::One => 1,
            Width::Two => 2,
            Width::Four => 4,
            Width::Eight => 8,
        }
    }

    /// Returns how many numbers these bytes have.
    pub(crate) fn numbers(self) -> u128
        ensures numbers { result ≡ numbers_in self }
        ensures few { result ≤ 2 ^ 64 }
        ensures many { 256 ≤ result }
    {
        match self {
            Width::One => 0x100,
            Width::Two => 0x1_0000,
            Width::Four => 0x1_0000_0000,
            Width::Eight => 0x1_0000_0000_0000_0000,
        }
    }
}

/// The type of a parameter.
#[derive(Clone, Copy)]
pub(crate) enum ParamType {
    /// A number without a sign.
    Unsigned(Width),
    /// A number with a sign.
    Signed(Width),
    /// True or false.
    Truth,
}

/// Returns the type that a text names.
#[tactic(auto, unfolding(crate::specs::Kinds::kind_of))]
pub(crate) fn kind_of(text: &[u8]) -> Option<ParamType>
    ensures { result ≡ kind_of text.now }
{
    if is_word(text, b"byte") {
        Some(ParamType::Unsigned(Width::One))
    } else if is_word(text, b"ushort") {
        Some(ParamType::Unsigned(Width::Two))
    } else if is_word(text, b"uint") {
        Some(ParamType::Unsigned(Width::Four))
    } else if is_word(text, b"ulong") {
        Some(ParamType::Unsigned(Width::Eight))
    } else if is_word(text, b"ullong") {
        Some(ParamType::Unsigned(Width::Eight))
    } else if is_word(text, b"short") {
        Some(ParamType::Signed(Width::Two))
    } else if is_word(text, b"int") {
        Some(ParamType::Signed(Width::Four))
    } else if is_word(text, b"long") {
        Some(ParamType::Signed(Width::Eight))
    } else if is_word(text, b"bool") {
        Some(ParamType::Truth)
    } else {
        None
    }
}

impl ParamType {
    /// Returns the number of bytes of its values.
    pub(crate) fn width(self) -> usize
        ensures width { result ≡ width_of self }
        ensures small { result ≤ 8 }
    {
        match self {
            ParamType::Unsigned(width) => width.bytes(),
            ParamType::Signed(width) => width.bytes(),
            ParamType::Truth => 1,
        }
    }

    /// Returns the number that a text states as a value of the type.
    fn stated(self, text: &[u8]) -> Option<u64>
        ensures { result ≡ stated self text.now }
    {
        match self {
            ParamType::Unsigned(width) => unsigned(width, text),
            ParamType::Signed(width) => signed(width, text),
            ParamType::Truth => truth(text),
        }
    }

    /// Returns the number of a value of the type, by the text that a word states for it, or by no
    /// text.
    #[tactic(auto, unfolding(crate::specs::Kinds::number_of))]
    pub(crate) fn number_of(self, text: Option<&[u8]>) -> Option<u64>
        ensures { result ≡ number_of self (option_copied text.entry) }
    {
        match (text, self) {
            (Some(text), kind) => kind.stated(text),
            (None, ParamType::Truth) => Some(1),
            (None, _) => None,
        }
    }
}

/// Returns whether a text is this word.
fn is_word(text: &[u8], word: &[u8]) -> bool
    ensures { result ≡ bytes_eq text.now word.now }
{
    text == word
}
