// A law of exceptions.

ghost use Rattle.herm_forms.specs.laws.ExceptionLaws.{ExceptionsLeaveAll};

/// Where a form that is a local step raises an exception, it leaves the body that it was given. The count of its step
/// comes before, and what the edge to a handler finalises after.
pub fn exceptions_leave_all_as_it_was()
    ensures as_before { ExceptionsLeaveAll }
{}
