//! The printed form of a namespace.

ghost use Rattle.std.specs.Prelude.{◌≡◌, [], IfOk, unwrap_or};
ghost use Rattle.acpi_declare.specs.Namespace.{namespace_of};
ghost use Rattle.acpi_declare.specs.Links.{links_at};
ghost use Rattle.acpins_output.specs.Listings.{Prints};
ghost use Rattle.acpins_output.specs.steps.Lines.{AreLines};

use acpi_declare::LinkMap;
use acpi_name::Path;
use acpi_space::{Space, Visitor};
use acpi_terms::Object;
use acpi_text::put_line;
use std::alloc::{AllocError, Global};
use text_buffer::Text;

/// The links of a path; none where it has none.
pub fn links_of<'a>(path: &Path, links: &'a LinkMap) -> &'a [Option<Path>]
    ensures { result.now ≡ unwrap_or (links_at links.now path.now) [] }
{
    match links.get(path) {
        Some(links) => links,
        None => &[],
    }
}

/// The lines so far, and the links of all fields.
#[derive(Drop)]
pub struct Lines<'a> {
    text: Text,
    links: &'a LinkMap,
}

impl Visitor<Object> for Lines<'_> {
    ghost was_shown = { AreLines };

    fn visit(&mut self, path: &Path, object: &Object) -> Result<(), AllocError> {
        put_line(&mut self.text, path, object, links_of(path, self.links));
        Ok(())
    }
}

/// A line for each object, in the order of the paths.
pub fn list<S: Space<Object>>(
    alloc: Global,
    objects: &S,
    links: &LinkMap,
) -> Result<Vec<u8>, AllocError>
    ensures { IfOk result (λ text. Prints (namespace_of (S.contents objects.now))
        (links_at links.now) text.items) }
{
    let mut lines = Lines {
        text: Text::new(alloc),
        links,
    };
    objects.visit_pairs(&mut lines)?;
    lines.text.into_bytes()
}
