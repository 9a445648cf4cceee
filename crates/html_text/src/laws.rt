//! Laws of escaped data, of the definitions alone: the functions do nothing, and their contracts state the laws.
ghost use Rattle.html_text.specs.Escape.{HasNoMarkup};

/// Escaped data holds no `<`, `>`, `"` or `'`, whatever the data is.
pub fn escaped_has_no_markup()
    ensures { HasNoMarkup }
{}
