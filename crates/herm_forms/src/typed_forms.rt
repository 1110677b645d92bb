// Laws of typed forms, whose only premise is that the form is typed in a well-formed table.

ghost use Rattle.std.specs.Prelude.{ℕ, List};
ghost use Rattle.herm_model.specs.Statements.{Process};
ghost use Rattle.herm_forms.specs.Modules.{Module};
ghost use Rattle.herm_forms.specs.OpenCalls.{Calling};
ghost use Rattle.herm_forms.specs.laws.FormsGoOn.{FormsGoOn};
ghost use Rattle.herm_forms.specs.laws.FormsSound.{FormsGiveWhatSuits, FormsKeepSound, OpenCallsKeepSound};
ghost use Rattle.herm_forms.specs.laws.FormsTakeAnswers.{FormsTakeAnswers};
ghost use Rattle.herm_forms.specs.laws.TypedAtoms.{TypedAtomsAreFull};

/// The keys of a typed `get` or `remove` come to a key of the table, and the arguments of mode in of a typed `call` to full
/// values of their parameters' types, in sound values that have what the statement needs.
pub fn typed_atoms_are_full()
    ensures atoms { (exceptions : ℕ) (processes : List Process) (c : Module) → TypedAtomsAreFull exceptions processes c }
{}

/// Every typed form keeps sound values that have what it needs, with what the statement table says is held behind its outcome:
/// a local step, and an action through each answer where what comes in suits.
pub fn typed_forms_keep_sound()
    ensures forms { (exceptions : ℕ) (processes : List Process) (c : Module) → FormsKeepSound exceptions processes c }
{}

/// While a typed call is open, values are sound but for its `inout` arguments, and the reply that it waits for leaves them
/// sound with what is held behind its outcome.
pub fn typed_open_calls_keep_sound()
    ensures calls { (exceptions : ℕ) (processes : List Process) (c : Module) (k : Calling) → OpenCallsKeepSound exceptions processes c k }
{}

/// What a typed `send` or `call` that finds what it needs puts is a message of its port, and what a typed return gives back is a
/// reply that the caller's call waits for.
pub fn typed_forms_give_what_suits()
    ensures messages { (exceptions : ℕ) (processes : List Process) (c : Module) → FormsGiveWhatSuits exceptions processes c }
{}

/// A typed form that is a local step comes to an outcome in sound values that have what it needs: none is stuck.
pub fn typed_forms_go_on()
    ensures forms { (exceptions : ℕ) (processes : List Process) (c : Module) → FormsGoOn exceptions processes c }
{}

/// What a typed form that is an action wants is there in sound values that have what it needs; and each answer to it is taken, where
/// what comes in suits, and so is a reply that an open call waits for.
pub fn typed_forms_take_answers()
    ensures forms { (exceptions : ℕ) (processes : List Process) (c : Module) → FormsTakeAnswers exceptions processes c }
{}
