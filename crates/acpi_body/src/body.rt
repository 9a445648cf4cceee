//! Reading method bodies.

ghost use Rattle.std.specs.Prelude.{◌≡◌, ◌≢◌, ◌++◌, ◌↔◌, ℕ, List, length, true, false, Some, None, IfOk, IfErr, IsErrAnd, IfSome};
ghost use Rattle.std.specs.FinMap as finite;
ghost use Rattle.acpi_tree.specs.Terms.{TermTrees};
ghost use Rattle.acpi_tree.specs.TermFits.{terms_fit};
ghost use Rattle.acpi_tree.specs.TermView.{terms_tree};
ghost use Rattle.acpi_values.specs.declared.fault.BodyReason.{BodyReason};
ghost use Rattle.acpi_values.specs.declared.fault.BodyReason.TheVariants.{Unsure};
ghost use Rattle.acpi_values.specs.Arguments.{Locals};
ghost use Rattle.acpi_body.specs.Arguments.{namespace_of, body_grammar};
ghost use Rattle.acpi_body.specs.Statements.{locals_after_all, ReadsBody};
ghost use Rattle.acpi_body.specs.Faults.{ShowsBody, IsNoStatement};
ghost use Rattle.acpi_body.specs.Reasons.{IfFault};
ghost use Rattle.acpi_body.specs.Bodies.{read, body_view, body_fits, IsBodyOf};
ghost use Rattle.acpi_body.specs.steps.Reading.{body_at};
ghost use Rattle.acpi_body.specs.steps.Answers.{body_of, fault_in};

use crate::arguments::Context;
use crate::counting::MethodCounting;
use crate::statement::body;
use acpi_code::Depth;
use acpi_counts::Counts;
use acpi_name::Path;
use acpi_space::Space;
use acpi_tree::{Object, Term};
use acpi_values::{BodyError, BodyFault};
use std::alloc::{AllocError, Global};

/// A method body (ACPI 6.5, 20.2.5.2 TermList of a DefMethod).
#[derive(Debug, Drop)]
pub enum Body {
    /// The statements that its bytes spell.
    Terms(Vec<Term>),
    /// Its bytes, which spell no statements.
    Opaque(Vec<u8>),
}

/// The terms of a method's body, where a name is followed by as many values as the counting says; a name for which that
/// isn't sure is a fault. A place counts from the body's first byte.
pub fn read_terms<M: MethodCounting>(
    counting: &M,
    bytes: &[u8],
    depth: Depth,
) -> Result<Vec<Term>, BodyError>
    // Terms are the reading of the bytes.
    ensures read { IfOk result (λ v. (ts : TermTrees) → (terms_tree v.items ≡ ts)
        ↔ ReadsBody (M.grammar counting.now) (M.method counting.now) depth bytes.now ts) }
    // What is read fits, where no loads may stand.
    ensures fits { ((locals : Locals) → (M.grammar counting.now locals).loads ≡ false)
        → IfOk result (λ v. terms_fit (terms_tree v.items) ≡ true) }
    // What a fault says is true of the bytes ..
    ensures faults { IfErr result (λ e. IfFault e (λ f.
        ShowsBody (M.grammar counting.now) (M.method counting.now) depth bytes.now f.reason
        f.place)) }
    // .. and they have no reading.
    ensures unread { IfErr result (λ e. IfFault e (λ f. (ts : TermTrees)
        → ¬ ReadsBody (M.grammar counting.now) (M.method counting.now) depth bytes.now ts)) }
    // Behind statements, what can't begin one is reported at its place.
    ensures next { (u w : List ℕ) (ts : TermTrees) (reason : BodyReason) → bytes.now ≡ u ++ w
        → ReadsBody (M.grammar counting.now) (M.method counting.now) depth u ts
        → IsNoStatement (M.grammar counting.now
        (locals_after_all (M.method counting.now) finite.empty ts)).loads reason w
        → IsErrAnd result (λ e. IfFault e (λ f. f ≡ record { reason = reason; place = length u })) }
{
    body(counting, depth.get(), bytes)
}

fn body_or_bytes<S: Space<Object>>(
    alloc: Global,
    space: &S,
    method: &Path,
    bytes: &[u8],
    depth: u32,
    counts: &Counts,
) -> Result<Body, AllocError>
    ensures { IfOk result (λ b. body_view b
        ≡ body_of bytes.now (body_at (body_grammar (namespace_of (S.contents space.now))
        (finite.get counts.now) method.now) method.now depth finite.empty bytes.now)) }
{
    match body(&Context::new(alloc, space, counts, method), depth, bytes) {
        Ok(terms) => Ok(Body::Terms(terms)),
        Err(BodyError::Fault(_)) => Ok(Body::Opaque(Vec::from_slice(alloc, bytes)?)),
        Err(BodyError::Memory) => Err(AllocError),
    }
}

/// The terms of a method's body, or its bytes where no terms stand for them. A name is followed by as many values as
/// the namespace says, and where nothing of it is defined, as `counts` says: the Externals of the method's table.
pub fn read_body<S: Space<Object>>(
    alloc: Global,
    space: &S,
    method: &Path,
    bytes: &[u8],
    depth: Depth,
    counts: &Counts,
) -> Result<Body, AllocError>
    // Terms are the reading of the bytes; opaque bytes are the same, and have no reading.
    ensures body { IfOk result (λ b. IsBodyOf
        (body_grammar (namespace_of (S.contents space.now)) (finite.get counts.now) method.now)
        method.now depth bytes.now (body_view b)) }
    // So it is read exactly where it has a reading, and as that.
    ensures read { IfOk result (λ b. (ts : TermTrees) → (body_view b ≡ read ts)
        ↔ ReadsBody (body_grammar (namespace_of (S.contents space.now))
        (finite.get counts.now) method.now) method.now depth bytes.now ts) }
    // What is read fits.
    ensures fits { IfOk result (λ b. body_fits (body_view b) ≡ true) }
{
    body_or_bytes(alloc, space, method, bytes, depth.get(), counts)
}

#[tactic(auto, unfolding(crate::specs::steps::Setting::count_in))]
fn fault_in<S: Space<Object>>(
    alloc: Global,
    space: &S,
    method: &Path,
    bytes: &[u8],
    depth: u32,
    counts: &Counts,
) -> Result<Option<BodyFault>, AllocError>
    ensures { IfOk result (λ w. w ≡ fault_in (body_at
        (body_grammar (namespace_of (S.contents space.now)) (finite.get counts.now) method.now)
        method.now depth finite.empty bytes.now)) }
{
    match body(&Context::new(alloc, space, counts, method), depth, bytes) {
        Ok(_) => Ok(None),
        Err(BodyError::Fault(fault)) => Ok(Some(fault)),
        Err(BodyError::Memory) => Err(AllocError),
    }
}

/// Why a method's body is not read, if it isn't. A place counts from the body's first byte.
pub fn why<S: Space<Object>>(
    alloc: Global,
    space: &S,
    method: &Path,
    bytes: &[u8],
    depth: Depth,
    counts: &Counts,
) -> Result<Option<BodyFault>, AllocError>
    // None exactly where the bytes have a reading.
    ensures read { IfOk result (λ w. (w ≡ None)
        ↔ ((ts : TermTrees) × ReadsBody (body_grammar (namespace_of (S.contents space.now))
        (finite.get counts.now) method.now) method.now depth bytes.now ts)) }
    // What a fault says is true of the bytes.
    ensures faults { IfOk result (λ w. IfSome w
        (λ f. ShowsBody (body_grammar (namespace_of (S.contents space.now))
        (finite.get counts.now) method.now) method.now depth bytes.now f.reason f.place)) }
    // It is always sure how many values follow a name.
    ensures sure { IfOk result (λ w. IfSome w (λ f. f.reason ≢ Unsure)) }
    // Behind statements, what can't begin one is reported at its place.
    ensures next { (u w : List ℕ) (ts : TermTrees) (reason : BodyReason) → bytes.now ≡ u ++ w
        → ReadsBody (body_grammar (namespace_of (S.contents space.now))
        (finite.get counts.now) method.now) method.now depth u ts → IsNoStatement false reason w
        → IfOk result (λ f. f ≡ Some (record { reason = reason; place = length u })) }
{
    fault_in(alloc, space, method, bytes, depth.get(), counts)
}
