//! The characters that a screen gets spelled out.
ghost use Rattle.std.specs.Prelude.{◌≡◌};
ghost use Rattle.desk_letters.specs.Hidden.{formats, is_format, is_hidden};

use ucd_category::GeneralCategory;
use ucd_derived::is_default_ignorable_code_point;

/// Whether a character could steer a terminal or the text around it, or shows nothing: a control character
/// other than tab and newline, a format character, a separator of lines or paragraphs, or one that Unicode
/// ignores by default.
#[tactic(auto, unfolding(crate::specs::Hidden::is_hidden))]
pub(crate) fn is_hidden(c: char) -> bool
    ensures { result ≡ is_hidden c }
{
    (c.is_control() && !(c == '\t' || c == '\n')) || is_format(c)
}

fn is_format(c: char) -> bool
    ensures { result ≡ is_format c }
{
    formats(GeneralCategory::for_char(c)) || is_default_ignorable_code_point(c)
}

fn formats(category: GeneralCategory) -> bool
    ensures { result ≡ formats category }
{
    matches!(
        category,
        GeneralCategory::Format
            | GeneralCategory::LineSeparator
            | GeneralCategory::ParagraphSeparator
    )
}
