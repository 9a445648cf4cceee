//! HTML that is written: markup that the program has, and data that comes from outside, which stands in the page as text
//! whatever its bytes are.
//!
//! ```text
//! let mut page = Html::new(alloc);
//! page.markup("<b title=\"");
//! page.text(name);                      // <"A" & 'B'>  ──►  &lt;&quot;A&quot; &amp; &#39;B&#39;&gt;
//! page.markup("\">");
//! let bytes = page.into_bytes()?;       // an error where a growth of memory was refused
//! ```
//!
//! Markup is a constant of the program (`&'static str`), so data can't be put as markup by mistake. `laws` says that
//! escaped data holds no `<`, `>`, `"` or `'`.
#![tactic(auto)]

mod html;
pub mod laws;

pub use html::Html;
