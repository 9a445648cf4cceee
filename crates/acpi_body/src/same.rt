//! Copies of bodies, and their equality.

ghost use Rattle.std.specs.Prelude.{◌≡◌, ◌↔◌, IsTrue, IfOk};
ghost use Rattle.std.specs.Cmp.{partial_equiv_from_equiv, on_equiv};
ghost use Rattle.acpi_tree.specs.TermView.{terms_view};
ghost use Rattle.acpi_tree.specs.steps.Equality.{equivalence};
ghost use Rattle.acpi_body.specs.Bodies.{body_view};
ghost use Rattle.acpi_body.specs.steps.BodyEquality.{body_eq, body_tells};

use crate::body::Body;
use acpi_tree::Term;
use std::alloc::{AllocError, Global};

fn copy_terms(alloc: Global, terms: &[Term]) -> Result<Vec<Term>, AllocError>
    ensures { IfOk result (λ v. terms_view v.items ≡ terms_view terms.now) }
{
    let mut copies = Vec::new(alloc);
    for term in terms {
        copies.push(term.copy(alloc)?)?;
    }
    Ok(copies)
}

impl Body {
    /// An equal body with memory of its own.
    pub fn copy(&self, alloc: Global) -> Result<Body, AllocError>
        ensures { IfOk result (λ b. body_view b ≡ body_view self.now) }
    {
        match self {
            Body::Terms(terms) => Ok(Body::Terms(copy_terms(alloc, terms)?)),
            Body::Opaque(bytes) => Ok(Body::Opaque(bytes.clone()?)),
        }
    }
}

#[tactic(auto, using(acpi_tree::proofs::TermLists::terms_alike))]
fn same_body(a: &Body, b: &Body) -> bool
    ensures { result ≡ body_eq (body_view a.now) (body_view b.now) }
{
    match (a, b) {
        (Body::Terms(terms), Body::Terms(others)) => terms == others,
        (Body::Opaque(bytes), Body::Opaque(others)) => bytes == others,
        _ => false,
    }
}

impl PartialEq for Body {
    ghost eq = { λ a b. body_eq (body_view a) (body_view b) };

    ghost laws = { partial_equiv_from_equiv (on_equiv body_view (equivalence body_tells)) };

    // True exactly of equal values.
    fn eq(&self, other: &Body) -> bool
        ensures test { result ≡ body_eq (body_view self.now) (body_view other.now) }
        ensures same { IsTrue result ↔ (body_view self.now ≡ body_view other.now) }
    {
        same_body(self, other)
    }
}

impl Eq for Body {
    ghost laws = { on_equiv body_view (equivalence body_tells) };
}
