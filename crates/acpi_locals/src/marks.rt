//! Numbers that lead to marked ones.

ghost use Rattle.std.specs.Prelude.{◌≡◌, ◌<◌, ◌≤◌, ◌↔◌, ℕ, IfOk, OnOk, List, [], length, IsTrue};
ghost use Rattle.acpi_locals.specs.Leading.{LeadsTo};
ghost use Rattle.acpi_locals.specs.steps.Rounds.{any_marked, is_marked, is_next, IsRound};

use std::alloc::AllocError;

/// Numbers that lead to others.
pub(crate) trait Leads {
    ghost next: { Self → ℕ → List ℕ };

    /// Whether the number leads to one that is marked.
    fn leads_to_marked(&self, number: usize, marks: &[bool]) -> Result<bool, AllocError>
        ensures { IfOk result (λ b. b ≡ any_marked marks.now (next self.now number)) };
}

// Whether the number leads to a mark and has none.
fn is_next<L: Leads>(leads: &L, marks: &[bool], number: usize) -> Result<bool, AllocError>
    requires { number < length marks.now }
    ensures { IfOk result (λ b. b ≡ is_next (L.next leads.now) marks.now number) }
{
    Ok(leads.leads_to_marked(number, marks)? && !marks[number])
}

// Marks each number that leads to a mark, in one round. Whether there was one without a mark.
fn mark_round<L: Leads>(leads: &L, marks: &mut [bool]) -> Result<bool, AllocError>
    ensures { IfOk result (IsRound (L.next leads.now) marks.old (length marks.old) marks.new) }
{
    let mut changed = false;
    'each: for number in 0..marks.len() {
        if is_next(leads, marks, number)? {
            marks[number] = true;
            changed = true;
        }
    }
    Ok(changed)
}

/// Marks all numbers that lead to a mark.
pub(crate) fn mark_all<L: Leads>(leads: &L, marks: &mut [bool]) -> Result<(), AllocError>
    requires { (n : ℕ) → length marks.old ≤ n → L.next leads.now n ≡ [] }
    ensures { OnOk result ((n : ℕ) → IsTrue (is_marked marks.new n)
        ↔ LeadsTo (L.next leads.now) (is_marked marks.old) n) }
{
    'rounds: while mark_round(leads, marks)? {}
    Ok(())
}
