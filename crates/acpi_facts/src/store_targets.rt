//! The names that code may store to.

use acpi_entries::{BodyReading, body_of};
use acpi_kinds::ObjectKind;
use acpi_name::{Name, Seg};
use acpi_outline::{Node, Nodes};
use acpi_overview::Object;
use acpi_ranges::{Span, SpanContent, Spans};
use acpi_survey::{NameUse, Survey, names_in_fixed, names_in_plain, names_in_terms};
use std::alloc::{AllocError, Global};
use std::collections::BTreeSet;

/// The last segments of all names that stand as the target of a store or as a reference in some body or statement, so
/// that code may store to the objects of these names (ACPI 6.5, 19.6). A name with another last segment is never stored
/// to.
#[derive(Drop)]
pub struct StoreTargets {
    segments: BTreeSet<Seg>,
    has_unread: bool,
    opaque: usize,
}

fn last_of(name: &Name) -> Option<Seg> {
    let name = name.view();
    let last = name.len().checked_sub(1)?;
    Some(name.seg(last))
}

impl StoreTargets {
    fn put_name(&mut self, name: &Name) -> Result<(), AllocError> {
        if let Some(segment) = last_of(name) {
            self.segments.insert(segment)?;
        }
        Ok(())
    }

    fn put_names(&mut self, names: &[&Name]) -> Result<(), AllocError> {
        for name in names {
            self.put_name(name)?;
        }
        Ok(())
    }

    // Puts the names that stand as references in a node, but for what stands in it.
    fn put_node(&mut self, alloc: Global, node: &Node) -> Result<(), AllocError> {
        match node {
            Node::Plain(plain) => {
                self.put_names(&names_in_plain(alloc, NameUse::Reference, plain)?)
            }
            Node::Holds(fixed, _) => {
                self.put_names(&names_in_fixed(alloc, NameUse::Reference, fixed)?)
            }
            Node::Fields(fixed, _, _) => {
                self.put_names(&names_in_fixed(alloc, NameUse::Reference, fixed)?)
            }
            Node::Closed(_, _) => Ok(()),
            _ => {
                self.has_unread = true;
                Ok(())
            }
        }
    }

    fn put_span(&mut self, alloc: Global, span: &Span<'_>) -> Result<(), AllocError> {
        match span.what {
            SpanContent::Node(node) => self.put_node(alloc, node),
            SpanContent::Element(_, _, _) => Ok(()),
            SpanContent::Lost(_) => {
                self.has_unread = true;
                Ok(())
            }
        }
    }

    fn put_nodes(&mut self, alloc: Global, nodes: &Nodes) -> Result<(), AllocError> {
        let mut spans = Spans::new(alloc, nodes, 0)?;
        for _ in 0..u64::MAX {
            let Some(range) = spans.next()? else {
                return Ok(());
            };
            self.put_span(alloc, &range.span)?;
        }
        Ok(())
    }

    // Puts the names that stand as references in the body of a method.
    fn put_body(
        &mut self,
        alloc: Global,
        survey: &Survey,
        object: &Object<'_>,
    ) -> Result<(), AllocError> {
        let ObjectKind::Method(_) = object.kind else {
            return Ok(());
        };
        let Some(body) = body_of(survey, object.number)? else {
            return Ok(());
        };
        match &body.reading {
            BodyReading::Terms(terms) => {
                self.put_names(&names_in_terms(alloc, NameUse::Reference, terms)?)
            }
            BodyReading::Opaque { .. } => {
                self.has_unread = true;
                self.opaque = self.opaque.saturating_add(1);
                Ok(())
            }
        }
    }

    /// The names in the tables of a survey and in the methods among its objects.
    pub fn new(
        alloc: Global,
        survey: &Survey,
        objects: &[Object<'_>],
    ) -> Result<StoreTargets, AllocError> {
        let mut store_targets = StoreTargets {
            segments: BTreeSet::new(alloc),
            has_unread: false,
            opaque: 0,
        };
        'tables: for table in &survey.tables {
            store_targets.put_nodes(alloc, &table.nodes)?;
        }
        'objects: for object in objects {
            store_targets.put_body(alloc, survey, object)?;
        }
        Ok(store_targets)
    }

    /// How many methods have code that can't be read.
    pub fn opaque(&self) -> usize {
        self.opaque
    }

    /// Whether code may store to an object whose path ends with the segment. It may where some code can't be read.
    pub fn may_store(&self, segment: Seg) -> bool {
        self.has_unread || self.segments.contains(&segment)
    }
}
