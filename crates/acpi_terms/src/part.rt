//! Reading one constant or field element from the front of some bytes.

ghost use Rattle.std.specs.Prelude.{◌≡◌, ◌<◌, ◌≤◌, ◌++◌, ℕ, List, Some, Ok, IfErr, length, take, drop, IfSome, IfOk, option_map};
ghost use Rattle.acpi_tree.specs.Tree.{FieldTree};
ghost use Rattle.acpi_code.specs.Spelling.{SpellsInt};
ghost use Rattle.acpi_code.specs.Fields.{SpellsField};
ghost use Rattle.acpi_terms.specs.Faults.{IsTrueElementFault, OrMemory};
ghost use Rattle.acpi_tree.specs.declared.tree.Int.{Int};
ghost use Rattle.acpi_tree.specs.View.{field_view};
ghost use Rattle.acpi_terms.specs.steps.Reading.{field_at, int_front};
ghost use Rattle.acpi_terms.specs.steps.Cursor.{Gives};

use crate::constant::constant;
use crate::fault::ItemFault;
use acpi_code::{Code, field_element};
use acpi_tree::{FieldElem, Int};
use std::alloc::Global;

fn front_int(bytes: &[u8]) -> Option<(Int, usize)>
    ensures used { IfSome result (λ x. (0 < x.1) × (x.1 ≤ length bytes.now)) }
    ensures exact { option_map (λ x. (x.0, drop x.1 bytes.now)) result ≡ int_front bytes.now }
{
    let mut code = Code::new(bytes);
    match constant(&mut code) {
        Ok(int) => Some((int, bytes.len() - code.left().len())),
        Err(_) => None,
    }
}

/// The constant at the front of the bytes, and how many bytes spell it (ACPI 6.5, 20.2.3). `None` where no
/// constant is spelled there. It takes no memory.
pub fn read_int(bytes: &[u8]) -> Option<(Int, usize)>
    // What is answered is spelled at the front.
    ensures found { IfSome result (λ x. SpellsInt x.0 (take x.1 bytes.now)) }
    ensures used { IfSome result (λ x. (0 < x.1) × (x.1 ≤ length bytes.now)) }
    // What is spelled at the front is answered. So None means that nothing is.
    ensures only { (i : Int) (front rest : List ℕ) → SpellsInt i front → bytes.now ≡ front ++ rest
        → result ≡ Some (i, length front) }
{
    front_int(bytes)
}

#[tactic(auto, using(crate::proofs::Parts::field_fails))]
fn front_elem(alloc: Global, bytes: &[u8]) -> Result<(FieldElem, usize), ItemFault>
    ensures used { IfOk result (λ x. (0 < x.1) × (x.1 ≤ length bytes.now)) }
    ensures exact { Gives (λ x. (field_view x.0, drop x.1 bytes.now)) result
        (field_at (length bytes.now) bytes.now) }
{
    let mut code = Code::new(bytes);
    let elem = field_element(alloc, &mut code)?;
    Ok((elem, bytes.len() - code.left().len()))
}

/// The field element at the front of the bytes, which are the rest of a field list, and how many bytes spell it
/// (ACPI 6.5, 20.2.5.2 FieldElement). A place in a fault counts bytes from the first one. An element has no level,
/// so no fault is `TooDeep`.
pub fn read_elem(alloc: Global, bytes: &[u8]) -> Result<(FieldElem, usize), ItemFault>
    // What is answered is spelled at the front.
    ensures found { IfOk result (λ x. SpellsField (field_view x.0) (take x.1 bytes.now)) }
    ensures used { IfOk result (λ x. (0 < x.1) × (x.1 ≤ length bytes.now)) }
    // What is spelled at the front is answered, unless memory runs out.
    ensures only { (e : FieldTree) (front rest : List ℕ) → SpellsField e front → bytes.now ≡ front
        ++ rest
        → OrMemory result (λ x. (field_view x.0 ≡ e) × (x.1 ≡ length front)) }
    // A fault is of the first part, from the left, that isn't spelled.
    ensures faults { IfErr result (λ e. IsTrueElementFault bytes.now e) }
{
    front_elem(alloc, bytes)
}
