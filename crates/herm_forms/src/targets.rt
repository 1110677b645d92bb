// Laws of the forms that set a value at any path: sound values that have what a form needs stay sound.

ghost use Rattle.herm_forms.specs.Modules.{Module};
ghost use Rattle.herm_forms.specs.laws.TargetLaws.{AnswersKeepSound, AssignmentsKeepSound, MovesKeepSound, NewValuesKeepSound, ReceivesKeepSound, ReturnedSendsKeepSound, SentAreMessages};

/// An assignment to any path does what the statement table says of it, where the expression's value is a full one of the
/// path's type.
pub fn assignments_keep_sound()
    ensures assignments { (c : Module) → AssignmentsKeepSound c }
{}

/// So do `new` of a record or a table and `connect`, at any path: the value's own fact is made.
pub fn new_values_keep_sound()
    ensures values { (c : Module) → NewValuesKeepSound c }
{}

/// So does a `move` from any path to any path of the same type: what the source holds beyond its full facts is dropped.
pub fn moves_keep_sound()
    ensures moves { MovesKeepSound }
{}

/// So does a `receive` at any path of the message's type, with the facts at which the port's messages travel.
pub fn receives_keep_sound()
    ensures receives { ReceivesKeepSound }
{}

/// So do the answers to `new` of an inport, to `create` and to `select`, at any paths.
pub fn answers_keep_sound()
    ensures answers { (c : Module) → AnswersKeepSound c }
{}

/// What a `send` wants to put is a message of the port: it has exactly the facts at which messages travel.
pub fn sent_are_messages()
    ensures messages { SentAreMessages }
{}

/// A `send` whose message comes back does what the statement table says of the exception.
pub fn returned_sends_keep_sound()
    ensures returned { ReturnedSendsKeepSound }
{}
