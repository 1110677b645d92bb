//! Values that are well made.
ghost use Rattle.std.specs.Prelude.{◌≡◌};
ghost use Rattle.herm_model.specs.WellMade.{is_well_made};
ghost use Rattle.herm_values.specs.View.{value_view};
ghost use Rattle.herm_values.specs.Whole.{IsWhole};

use herm_values::Value;

/// Whether the value is well made: the places that it and each of its parts have are those of its kind. Each whole value
/// is, so it is not looked at.
pub fn is_well_made(value: &Value) -> bool
    requires whole { IsWhole value.now }
    ensures exactly { result ≡ is_well_made (value_view value.now) }
{
    true
}
