//! Equality of terms, by the trees that they stand for.

ghost use Rattle.std.specs.Prelude.{◌≡◌, IsTrue, ◌↔◌};
ghost use Rattle.std.specs.Cmp.{partial_equiv_from_equiv, on_equiv};
ghost use Rattle.acpi_tree.specs.Terms.{terms_of};
ghost use Rattle.acpi_tree.specs.TermView.{term_view, decl_view, operand_view, operands_view, terms_view};
ghost use Rattle.acpi_tree.specs.steps.TermEquality.{term_eq, terms_eq, term_tells};
ghost use Rattle.acpi_tree.specs.steps.Equality.{equivalence};

use crate::same::{same_fields, same_int, same_width};
use crate::term::{Decl, Operand, Term};

#[cycle(same_term)]
fn same_term(a: &Term, b: &Term) -> bool
    ensures { result ≡ term_eq (term_view a.now) (term_view b.now) }
{
    match (a, b) {
        (Term::Int(i), Term::Int(j)) => same_int(*i, *j),
        (Term::Str(s), Term::Str(t)) => s == t,
        (Term::Buffer(m, s), Term::Buffer(n, t)) => same_term(m, n) && s == t,
        (Term::Package(m, ts), Term::Package(n, us)) => m == n && same_terms(ts, us),
        (Term::VarPackage(m, ts), Term::VarPackage(n, us)) => same_term(m, n) && same_terms(ts, us),
        (Term::Local(m), Term::Local(n)) => m == n,
        (Term::Arg(m), Term::Arg(n)) => m == n,
        (Term::Debug, Term::Debug) => true,
        (Term::NoTarget, Term::NoTarget) => true,
        (Term::Ref(m), Term::Ref(n)) => m == n,
        (Term::Call(m, ts), Term::Call(n, us)) => m == n && same_terms(ts, us),
        (Term::Op(o, ts), Term::Op(p, us)) => o == p && same_operands(ts, us),
        (Term::If(t, ts, None), Term::If(u, us, None)) => same_term(t, u) && same_terms(ts, us),
        (Term::If(t, ts, Some(vs)), Term::If(u, us, Some(ws))) => same_terms(vs, ws)
            && same_term(t, u)
            && same_terms(ts, us),
        (Term::While(t, ts), Term::While(u, us)) => same_term(t, u) && same_terms(ts, us),
        (Term::Declare(d), Term::Declare(e)) => same_decl(d, e),
        _ => false,
    }
}

#[cycle(same_term)]
fn same_terms(a: &[Term], b: &[Term]) -> bool
    ensures { result ≡ terms_eq (terms_of (terms_view a.now)) (terms_of (terms_view b.now)) }
{
    if a.len() != b.len() {
        return false;
    }
    for i in 0..a.len() {
        if !same_term(&a[i], &b[i]) {
            return false;
        }
    }
    true
}

#[cycle(same_term)]
fn same_operand(a: &Operand, b: &Operand) -> bool
    ensures { result ≡ term_eq (operand_view a.now) (operand_view b.now) }
{
    match (a, b) {
        (Operand::Term(t), Operand::Term(u)) => same_term(t, u),
        (Operand::Byte(m), Operand::Byte(n)) => m == n,
        (Operand::Word(m), Operand::Word(n)) => m == n,
        (Operand::DWord(m), Operand::DWord(n)) => m == n,
        _ => false,
    }
}

#[cycle(same_term)]
fn same_operands(a: &[Operand], b: &[Operand]) -> bool
    ensures { result ≡ terms_eq (terms_of (operands_view a.now)) (terms_of (operands_view b.now)) }
{
    if a.len() != b.len() {
        return false;
    }
    for i in 0..a.len() {
        if !same_operand(&a[i], &b[i]) {
            return false;
        }
    }
    true
}

#[cycle(same_term)]
fn same_decl(a: &Decl, b: &Decl) -> bool
    ensures { result ≡ term_eq (decl_view a.now) (decl_view b.now) }
{
    match (a, b) {
        (Decl::Name(m, t), Decl::Name(n, u)) => m == n && same_term(t, u),
        (
            Decl::Create {
                width: w,
                source: s,
                index: i,
                name: m,
            },
            Decl::Create {
                width: v,
                source: t,
                index: j,
                name: n,
            },
        ) => same_width(*w, *v) && same_term(s, t) && same_term(i, j) && m == n,
        (
            Decl::CreateField {
                source: s,
                index: i,
                bits: c,
                name: m,
            },
            Decl::CreateField {
                source: t,
                index: j,
                bits: d,
                name: n,
            },
        ) => same_term(s, t) && same_term(i, j) && same_term(c, d) && m == n,
        (Decl::Mutex(m, f), Decl::Mutex(n, g)) => m == n && f == g,
        (Decl::Event(m), Decl::Event(n)) => m == n,
        (
            Decl::Region {
                name: m,
                space: s,
                offset: o,
                length: l,
            },
            Decl::Region {
                name: n,
                space: t,
                offset: p,
                length: k,
            },
        ) => m == n && s == t && same_term(o, p) && same_term(l, k),
        (
            Decl::Field {
                region: r,
                flags: f,
                elems: es,
            },
            Decl::Field {
                region: q,
                flags: g,
                elems: fs,
            },
        ) => r == q && f == g && same_fields(es, fs),
        (
            Decl::IndexField {
                index: i,
                datum: d,
                flags: f,
                elems: es,
            },
            Decl::IndexField {
                index: j,
                datum: e,
                flags: g,
                elems: fs,
            },
        ) => i == j && d == e && f == g && same_fields(es, fs),
        (
            Decl::BankField {
                region: r,
                bank: b,
                value: v,
                flags: f,
                elems: es,
            },
            Decl::BankField {
                region: q,
                bank: c,
                value: w,
                flags: g,
                elems: fs,
            },
        ) => r == q && b == c && same_term(v, w) && f == g && same_fields(es, fs),
        _ => false,
    }
}

impl PartialEq for Term {
    ghost eq = { λ a b. term_eq (term_view a) (term_view b) };

    ghost laws = { partial_equiv_from_equiv (on_equiv term_view (equivalence term_tells)) };

    // True exactly of equal values.
    fn eq(&self, other: &Term) -> bool
        ensures test { result ≡ term_eq (term_view self.now) (term_view other.now) }
        ensures same { IsTrue result ↔ (term_view self.now ≡ term_view other.now) }
    {
        same_term(self, other)
    }
}

impl Eq for Term {
    ghost laws = { on_equiv term_view (equivalence term_tells) };
}

impl PartialEq for Operand {
    ghost eq = { λ a b. term_eq (operand_view a) (operand_view b) };

    ghost laws = { partial_equiv_from_equiv (on_equiv operand_view (equivalence term_tells)) };

    // True exactly of equal values.
    fn eq(&self, other: &Operand) -> bool
        ensures test { result ≡ term_eq (operand_view self.now) (operand_view other.now) }
        ensures same { IsTrue result ↔ (operand_view self.now ≡ operand_view other.now) }
    {
        same_operand(self, other)
    }
}

impl Eq for Operand {
    ghost laws = { on_equiv operand_view (equivalence term_tells) };
}

impl PartialEq for Decl {
    ghost eq = { λ a b. term_eq (decl_view a) (decl_view b) };

    ghost laws = { partial_equiv_from_equiv (on_equiv decl_view (equivalence term_tells)) };

    // True exactly of equal values.
    fn eq(&self, other: &Decl) -> bool
        ensures test { result ≡ term_eq (decl_view self.now) (decl_view other.now) }
        ensures same { IsTrue result ↔ (decl_view self.now ≡ decl_view other.now) }
    {
        same_decl(self, other)
    }
}

impl Eq for Decl {
    ghost laws = { on_equiv decl_view (equivalence term_tells) };
}
