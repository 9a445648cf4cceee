//! Where calls and loads stand in a term.

ghost use Rattle.std.specs.Prelude.{◌≡◌, ◌++◌, ◌∷◌, ◌+◌, ◌-◌, [], drop, length, map, IfOk, OnOk, Some};
ghost use Rattle.std.specs.Option.{option_copied};
ghost use Rattle.acpi_tree.specs.Terms.{apply, terms_of};
ghost use Rattle.acpi_tree.specs.TermView.{decl_view, operand_view, operands_view, term_view, terms_tree};
ghost use Rattle.acpi_outline.specs.View.{fixed_view, plain_view};
ghost use Rattle.acpi_findings.specs.Marks.{behind, behind_all, behind_name, in_package, int_size, marks_in, marks_in_all, marks_in_fixed, marks_in_plain, operator_size};
ghost use Rattle.acpi_findings.specs.steps.MarkViews.{mark_of, mark_views};

use acpi_name::Name;
use acpi_outline::{Fixed, Plain};
use acpi_ranges::{bytes_behind, name_front, package_front};
use acpi_tree::{Decl, Int, Op, Operand, Term};
use std::alloc::{AllocError, Global};

/// A name that is called, or LoadTable, Load or Unload, which has no name.
#[derive(Debug, Clone, Copy)]
pub(crate) struct CalledName<'a> {
    /// Where it stands, in bytes from the code's first.
    pub place: usize,
    /// The name that is called, not resolved; none of LoadTable, Load and Unload.
    pub name: Option<&'a Name>,
}

// ---- the bytes behind what stands at their front

fn behind_name(bytes: &[u8]) -> &[u8]
    ensures { result.now ≡ behind_name bytes.now }
{
    match name_front(bytes) {
        Some((_, used)) => bytes_behind(bytes, used),
        None => bytes,
    }
}

// What a package holds, and what follows it.
fn in_package(bytes: &[u8]) -> &[u8]
    ensures { result.now ≡ in_package bytes.now }
{
    bytes_behind(bytes, package_front(bytes))
}

// How many bytes spell a constant.
fn int_size(number: Int) -> usize
    ensures { result ≡ int_size number }
{
    match number {
        Int::Zero => 1,
        Int::One => 1,
        Int::Ones => 1,
        Int::Revision => 2,
        Int::Byte(_) => 2,
        Int::Word(_) => 3,
        Int::DWord(_) => 5,
        Int::QWord(_) => 9,
    }
}

fn behind_operator(op: Op, bytes: &[u8]) -> &[u8]
    ensures { result.now ≡ drop (operator_size op) bytes.now }
{
    bytes_behind(bytes, op.row().opcode.len())
}

// Behind a string, with its prefix and the byte 00 at its end.
fn behind_string<'b>(text: &[u8], bytes: &'b [u8]) -> &'b [u8]
    ensures { result.now ≡ drop (length text.now + 2) bytes.now }
{
    bytes_behind(bytes_behind(bytes, text.len()), 2)
}

// ---- marks

// Puts the mark at the front of bytes that end at the place behind others.
fn put<'a>(
    found: &mut Vec<CalledName<'a>>,
    end: usize,
    name: Option<&'a Name>,
    bytes: &[u8],
) -> Result<(), AllocError>
    ensures { OnOk result (mark_views found.new.items ≡ mark_views found.old.items
        ++ (end - length bytes.now, mark_of name.entry) ∷ []) }
{
    found.push(CalledName {
        place: end.saturating_sub(bytes.len()),
        name,
    })?;
    Ok(())
}

// Puts the marks in a term behind others; the term stands at the front of bytes that end at the place. The bytes behind
// it.
#[cycle(marks)]
fn put_of_term<'a, 'b>(
    found: &mut Vec<CalledName<'a>>,
    end: usize,
    term: &'a Term,
    bytes: &'b [u8],
) -> Result<&'b [u8], AllocError>
    ensures marks { OnOk result (mark_views found.new.items ≡ mark_views found.old.items
        ++ marks_in end (term_view term.now) bytes.now) }
    ensures behind { IfOk result (λ b. b.now ≡ behind (term_view term.now) bytes.now) }
{
    match term {
        Term::Int(number) => Ok(bytes_behind(bytes, int_size(*number))),
        Term::Str(text) => Ok(behind_string(text, bytes)),
        Term::Debug => Ok(bytes_behind(bytes, 2)),
        Term::Local(_) => Ok(bytes_behind(bytes, 1)),
        Term::Arg(_) => Ok(bytes_behind(bytes, 1)),
        Term::NoTarget => Ok(bytes_behind(bytes, 1)),
        Term::Ref(_) => Ok(behind_name(bytes)),
        Term::Buffer(size, content) => {
            let rest = put_of_term(found, end, size, in_package(bytes))?;
            Ok(bytes_behind(rest, content.len()))
        }
        Term::Package(_, elements) => {
            put_of_terms(found, end, elements, bytes_behind(in_package(bytes), 1))
        }
        Term::VarPackage(count, elements) => {
            let rest = put_of_term(found, end, count, in_package(bytes))?;
            put_of_terms(found, end, elements, rest)
        }
        Term::Call(name, args) => {
            put(found, end, Some(name), bytes)?;
            put_of_terms(found, end, args, behind_name(bytes))
        }
        Term::Op(op, operands) => put_of_operator(found, end, *op, operands, bytes),
        Term::Declare(decl) => put_of_decl(found, end, decl, bytes),
        Term::If(_, _, _) => Ok(bytes_behind(bytes, 1)),
        Term::While(_, _) => Ok(bytes_behind(bytes, 1)),
    }
}

#[cycle(marks)]
fn put_of_terms<'a, 'b>(
    found: &mut Vec<CalledName<'a>>,
    end: usize,
    terms: &'a [Term],
    bytes: &'b [u8],
) -> Result<&'b [u8], AllocError>
    ensures marks { OnOk result (mark_views found.new.items ≡ mark_views found.old.items
        ++ marks_in_all end (terms_tree terms.now) bytes.now) }
    ensures behind { IfOk result (λ b. b.now ≡ behind_all (terms_tree terms.now) bytes.now) }
{
    let mut rest = bytes;
    'each: for term in terms {
        rest = put_of_term(found, end, term, rest)?;
    }
    Ok(rest)
}

#[cycle(marks)]
fn put_of_operator<'a, 'b>(
    found: &mut Vec<CalledName<'a>>,
    end: usize,
    op: Op,
    operands: &'a [Operand],
    bytes: &'b [u8],
) -> Result<&'b [u8], AllocError>
    ensures marks { OnOk result (mark_views found.new.items ≡ mark_views found.old.items
        ++ marks_in end (apply op (terms_of (operands_view operands.now))) bytes.now) }
    ensures behind { IfOk result (λ b. b.now
        ≡ behind (apply op (terms_of (operands_view operands.now))) bytes.now) }
{
    if op.is_load() {
        put(found, end, None, bytes)?;
    }
    put_of_operands(found, end, operands, behind_operator(op, bytes))
}

#[cycle(marks)]
fn put_of_operands<'a, 'b>(
    found: &mut Vec<CalledName<'a>>,
    end: usize,
    operands: &'a [Operand],
    bytes: &'b [u8],
) -> Result<&'b [u8], AllocError>
    ensures marks { OnOk result (mark_views found.new.items ≡ mark_views found.old.items
        ++ marks_in_all end (terms_of (operands_view operands.now)) bytes.now) }
    ensures behind { IfOk result (λ b. b.now
        ≡ behind_all (terms_of (operands_view operands.now)) bytes.now) }
{
    let mut rest = bytes;
    'each: for operand in operands {
        rest = match operand {
            Operand::Term(term) => put_of_term(found, end, term, rest)?,
            Operand::Byte(_) => bytes_behind(rest, 1),
            Operand::Word(_) => bytes_behind(rest, 2),
            Operand::DWord(_) => bytes_behind(rest, 4),
        };
    }
    Ok(rest)
}

#[cycle(marks)]
fn put_of_decl<'a, 'b>(
    found: &mut Vec<CalledName<'a>>,
    end: usize,
    decl: &'a Decl,
    bytes: &'b [u8],
) -> Result<&'b [u8], AllocError>
    ensures marks { OnOk result (mark_views found.new.items ≡ mark_views found.old.items
        ++ marks_in end (decl_view decl.now) bytes.now) }
    ensures behind { IfOk result (λ b. b.now ≡ behind (decl_view decl.now) bytes.now) }
{
    match decl {
        Decl::Name(_, data) => {
            put_of_term(found, end, data, behind_name(bytes_behind(bytes, 1)))
        }
        Decl::Create { source, index, .. } => {
            let rest = put_of_term(found, end, source, bytes_behind(bytes, 1))?;
            Ok(behind_name(put_of_term(found, end, index, rest)?))
        }
        Decl::CreateField {
            source,
            index,
            bits,
            ..
        } => {
            let rest = put_of_term(found, end, source, bytes_behind(bytes, 2))?;
            let rest = put_of_term(found, end, index, rest)?;
            Ok(behind_name(put_of_term(found, end, bits, rest)?))
        }
        Decl::Region { offset, length, .. } => {
            let rest = bytes_behind(behind_name(bytes_behind(bytes, 2)), 1);
            let rest = put_of_term(found, end, offset, rest)?;
            put_of_term(found, end, length, rest)
        }
        Decl::Mutex(_, _) => Ok(bytes_behind(behind_name(bytes_behind(bytes, 2)), 1)),
        Decl::Event(_) => Ok(behind_name(bytes_behind(bytes, 2))),
        Decl::Field { .. } => Ok(bytes_behind(bytes, 1)),
        Decl::IndexField { .. } => Ok(bytes_behind(bytes, 1)),
        Decl::BankField { .. } => Ok(bytes_behind(bytes, 1)),
    }
}

// ---- marks of nodes

/// The marks in a plain node that stands at the front of bytes, which end at the place.
pub(crate) fn marks_of_plain<'a>(
    alloc: Global,
    end: usize,
    plain: &'a Plain,
    bytes: &[u8],
) -> Result<Vec<CalledName<'a>>, AllocError>
    ensures { IfOk result (λ v. mark_views v.items
        ≡ marks_in_plain end (plain_view plain.now) bytes.now) }
{
    let mut found = Vec::new(alloc);
    match plain {
        Plain::Term(term) => {
            put_of_term(&mut found, end, term, bytes)?;
        }
        Plain::External(_) => {}
        Plain::Alias(source, _) => put(&mut found, end, Some(source), bytes)?,
        Plain::TableRegion(_, signature, oem, table) => {
            let rest = behind_name(bytes_behind(bytes, 2));
            let rest = put_of_term(&mut found, end, signature, rest)?;
            let rest = put_of_term(&mut found, end, oem, rest)?;
            put_of_term(&mut found, end, table, rest)?;
        }
    }
    Ok(found)
}

/// The marks in the fixed arguments of a package that stands at the front of bytes, which end at the place.
pub(crate) fn marks_of_fixed<'a>(
    alloc: Global,
    end: usize,
    fixed: &'a Fixed,
    bytes: &[u8],
) -> Result<Vec<CalledName<'a>>, AllocError>
    ensures { IfOk result (λ v. mark_views v.items
        ≡ marks_in_fixed end (fixed_view fixed.now) bytes.now) }
{
    let mut found = Vec::new(alloc);
    match fixed {
        Fixed::If(test) => {
            put_of_term(&mut found, end, test, in_package(bytes))?;
        }
        Fixed::While(test) => {
            put_of_term(&mut found, end, test, in_package(bytes))?;
        }
        Fixed::BankField(_, _, value, _) => {
            let inner = in_package(bytes_behind(bytes, 1));
            let rest = behind_name(behind_name(inner));
            put_of_term(&mut found, end, value, rest)?;
        }
        _ => {}
    }
    Ok(found)
}
