// Laws of expressions: typed ones come to full values of their types, and any raise only exceptions that they can raise.

ghost use Rattle.herm_forms.specs.laws.EdgeLaws.{AreDeep};
ghost use Rattle.herm_forms.specs.Modules.{Module};
ghost use Rattle.herm_forms.specs.laws.ExpressionLaws.{ExampleTyping, RaisesItsExceptions, TypedAssignmentsKeepSound, TypedExpressionsGiveFull, TypedExpressionsHaveValues};

/// A typed expression that is assigned gives a full value of its type, in sound values that have what the assignment needs.
pub fn typed_expressions_give_full_values()
    ensures full { TypedExpressionsGiveFull }
{}

/// Its evaluation is never stuck: it comes to a full value of the type or to an exception, and a test of `if` or `while` to a
/// boolean or to an exception.
pub fn typed_expressions_have_values()
    ensures values { (c : Module) → AreDeep c → TypedExpressionsHaveValues c }
{}

/// Any evaluation raises only exceptions that the expression can raise.
pub fn evaluations_raise_their_exceptions()
    ensures exceptions { RaisesItsExceptions }
{}

/// So an assignment of a typed expression to a path of its type does what the statement table says of it.
pub fn typed_assignments_keep_sound()
    ensures assignments { TypedAssignmentsKeepSound }
{}

/// Some expressions have types, and some have none.
pub fn expressions_are_typed_as_written()
    ensures example { ExampleTyping }
{}
