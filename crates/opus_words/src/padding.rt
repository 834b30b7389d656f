//! What becomes of padding bytes, as `--padding` names it.
ghost use Rattle.std.specs.Prelude.{◌≡◌};
ghost use Rattle.opus_words.specs.Paddings.{first_padding, padding_name, padding_named};

use opus_feed::Padding;

// Both, the default first.
const ALL: [Padding; 2] = [Padding::Drop, Padding::Keep];

/// The default.
pub(crate) fn first_padding() -> Padding
    ensures { result ≡ first_padding }
{
    Padding::Drop
}

/// The word for it: `drop` or `keep`.
pub fn padding_name(padding: Padding) -> &'static str
    ensures { result.now ≡ padding_name padding }
{
    match padding {
        Padding::Drop => "drop",
        Padding::Keep => "keep",
    }
}

/// The one of this name.
pub(crate) fn padding_named(name: &str) -> Option<Padding>
    ensures { result ≡ padding_named name.now }
{
    ALL.iter()
        .copied()
        .find(|padding| padding_name(*padding) == name)
}
