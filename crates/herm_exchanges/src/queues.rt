//! Values that wait in a row.
ghost use Rattle.std.specs.Prelude.{◌≡◌, ◌++◌, [], IfNone, IfSome, option_to_list};
ghost use Rattle.std.specs.List.{All};
ghost use Rattle.herm_values.specs.Whole.{IsWhole};
ghost use Rattle.herm_exchanges.specs.Composed.{none_left};

use herm_values::Value;
use std::collections::VecDeque;

/// Takes the first value, if there is one.
pub fn pop_first(left: &mut VecDeque<Value>) -> Option<Value>
    ensures items { left.old.items ≡ option_to_list result ++ left.new.items }
    ensures none { IfNone result (left.old.items ≡ []) }
    ensures whole { All IsWhole left.old.items → IfSome result IsWhole }
    ensures left_whole { All IsWhole left.old.items → All IsWhole left.new.items }
{
    left.pop_front()
}

/// Whether no value is left.
pub fn none_left(left: &VecDeque<Value>) -> bool
    ensures none { result ≡ none_left left.now.items }
{
    left.is_empty()
}
