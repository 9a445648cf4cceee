//! Where the names of a term may be found, in words.

ghost use Rattle.std.specs.Prelude.{◌≡◌, ◌++◌, codes};
ghost use Rattle.acpi_text.specs.Terms.{term_text};
ghost use Rattle.acpi_tree.specs.TermView.{term_view};
ghost use Rattle.acpi_entries.specs.ConditionViews.{link_view, link_views};
ghost use Rattle.acpins_survey_output.specs.Links.{link_text, links_text, sourced_text};
ghost use Rattle.acpi_objects.specs.Views.{kind_view};
ghost use Rattle.acpins_survey_output.specs.Objects.{source_of};

use crate::objects::computed_source;
use acpi_entries::Link;
use acpi_objects::ObjectKind;
use acpi_text::put_term;
use acpi_tree::Term;
use acpins_survey_reasons::put_paths;
use text_buffer::Text;

/// Puts where a name may be found: its candidates with a bar between each two, and behind them `|-` where it isn't
/// certain; `-` where it has none.
pub fn put_link(text: &mut Text, link: &Link<'_>)
    ensures { text.new ≡ text.old ++ link_text (link_view link.now) }
{
    if link.paths.is_empty() {
        return text.put("-");
    }
    put_paths(text, "|", &link.paths);
    if link.is_certain {
        return;
    }
    text.put("|-")
}

// An arrow and links, with a comma between each two; nothing where there are none.
fn put_found(text: &mut Text, links: &[Link<'_>])
    ensures { text.new ≡ text.old ++ links_text (link_views links.now) }
{
    match links {
        [] => {},
        [first, rest @ ..] => {
            text.put(" -> ");
            put_link(text, first);
            for link in rest {
                text.put(", ");
                put_link(text, link);
            }
        }
    }
}

// An arrow, and the source of a Create field.
fn put_source(text: &mut Text, source: &Term)
    ensures { text.new
        ≡ text.old ++ (codes " -> (" ++ term_text (term_view source.now) ++ codes ")") }
{
    text.put(" -> (");
    put_term(text, source);
    text.put(")")
}

/// Puts an arrow and the links of an object; of a Create field whose source is no name, the source.
pub fn put_links(text: &mut Text, kind: &ObjectKind<'_>, links: &[Link<'_>])
    ensures { text.new ≡ text.old ++ sourced_text (source_of (kind_view kind.now))
        (link_views links.now) }
{
    match computed_source(kind) {
        Some(source) => put_source(text, source),
        None => put_found(text, links),
    }
}
