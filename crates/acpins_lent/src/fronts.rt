//! Arrays of the caller.

ghost use Rattle.std.specs.Prelude.{◌≤◌, length};
ghost use Rattle.acpins_lent.specs.Lent.{IsFront};

/// Puts items at the front of an array.
pub fn put_front<T: Copy>(out: &mut [T], items: &[T])
    requires { length items.now ≤ length out.old }
    ensures { IsFront items.now out.old out.new }
{
    let (front, _) = out.split_at_mut(items.len());
    front.copy_from_slice(items);
}
