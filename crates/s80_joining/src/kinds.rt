// Changes that are no part of a set.
ghost use Rattle.std.specs.Prelude.{◌≡◌};
ghost use Rattle.s80_history.specs.Lists.{is_no_changes};
ghost use Rattle.s80_joining.specs.Parts.{is_doit};

use s80_change::Change;
use s80_form::Form;

/// Whether a change is a doIt.
pub(crate) fn is_doit(change: &Change) -> bool
    ensures { result ≡ is_doit change.now }
{
    match change {
        Change::Form(_) => false,
        Change::Method(_) => false,
        Change::DoIt { .. } => true,
    }
}

/// Whether a change begins a set anew.
pub(crate) fn is_no_changes(change: &Change) -> bool
    ensures { result ≡ is_no_changes change.now }
{
    match change {
        Change::Form(form) => matches!(form, Form::NoChanges),
        Change::Method(_) => false,
        Change::DoIt { .. } => false,
    }
}
