//! What operators ask of a type, as the look at the end of a file asks it.

ghost use Rattle.std.specs.Prelude.{◌≡◌, ◌&&◌, not};
ghost use Rattle.cf_elab.specs.Operand as operand;
ghost use Rattle.cf_elab_env.specs.Seen.{sort_seen};
ghost use Rattle.cf_elab_valid_files.specs.File.Ends as ends;

use cf_elab_env::Sort;

pub(crate) fn is_reference(sort: Sort) -> bool
    ensures { result ≡ operand.is_reference (sort_seen sort) }
{
    matches!(sort, Sort::Reference(_))
}

/// Whether an object can be of it.
pub(crate) fn is_object(sort: Sort) -> bool
    ensures { result ≡ ends.is_object (sort_seen sort) }
{
    !matches!(sort, Sort::Void | Sort::Function(_))
}

/// Whether a function can give it (8.2.5).
pub(crate) fn is_given(sort: Sort) -> bool
    ensures { result ≡ ends.is_given (sort_seen sort) }
{
    !matches!(sort, Sort::Array(_, _) | Sort::Function(_))
}

/// Whether a reference can lead to it (8.2.2).
pub(crate) fn is_referred(sort: Sort) -> bool
    ensures { result ≡ (not (operand.is_reference (sort_seen sort)) && not (operand.is_void (sort_seen sort))) }
{
    !matches!(sort, Sort::Reference(_) | Sort::Void)
}

/// Whether an array can have it (8.2.4).
pub(crate) fn is_element(sort: Sort) -> bool
    ensures { result ≡ (not (operand.is_reference (sort_seen sort)) && ends.is_object (sort_seen sort)) }
{
    !matches!(sort, Sort::Reference(_) | Sort::Void | Sort::Function(_))
}
