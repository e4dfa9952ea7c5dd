//! Lines as they come from the formatter.

ghost use Rattle.std.specs.Prelude.{◌≡◌, string_bytes};

use paging_model::byte_strings::Text;

/// A line that was formatted.
pub(crate) fn text_of(line: String) -> Text
    ensures { result ≡ string_bytes line }
{
    Text::from_vec(line.into_bytes())
}
