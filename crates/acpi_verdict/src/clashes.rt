//! The first of several clashes of two SSDTs.

ghost use Rattle.std.specs.Prelude.{◌≡◌, OnOk};
ghost use Rattle.acpi_verdict.specs.steps.Clashing.{is_earlier, IsAt, Offers};

use acpi_name::Path;
use std::alloc::AllocError;
use std::cmp::Ordering;

/// Two SSDTs that clash, by their numbers from 1, and the path at which they do.
#[derive(Drop)]
pub(crate) struct Clash {
    pub(crate) first: usize,
    pub(crate) second: usize,
    pub(crate) path: Path,
}

// Whether these clash before the others do: by numbers, then by path.
fn is_earlier(clash: &Option<Clash>, first: usize, second: usize, path: &Path) -> bool
    ensures { result ≡ is_earlier clash.now first second path.now }
{
    match clash {
        Some(other) => {
            first
                .cmp(&other.first)
                .then(second.cmp(&other.second))
                .then(path.cmp(&other.path))
                == Ordering::Less
        }
        None => true,
    }
}

/// Keeps the first of the clash that is there and of the one at that path.
pub(crate) fn offer(
    clash: &mut Option<Clash>,
    first: usize,
    second: usize,
    path: &Path,
) -> Result<(), AllocError>
    ensures { OnOk result (Offers clash.old clash.new (IsAt first second path.now)) }
{
    if is_earlier(clash, first, second, path) {
        *clash = Some(Clash {
            first,
            second,
            path: path.copy()?,
        });
    }
    Ok(())
}
