// Laws of calls and returns: what travels is what is waited for, and values stay sound.

ghost use Rattle.herm_forms.specs.Modules.{Module};
ghost use Rattle.herm_forms.specs.OpenCalls.{Calling};
ghost use Rattle.herm_forms.specs.laws.CallLaws.{CallsAreMessages, CallsKeepSound, RepliesKeepSound, ReturnsGiveReplies, ReturnsKeepSound};

/// Behind the answer to a `return` or a `return ... exception`, values are sound without the callmessage, whatever it
/// still held.
pub fn returns_keep_sound()
    ensures returns { (c : Module) → ReturnsKeepSound c }
{}

/// What a `return` that finds what it needs gives back is a reply that the caller's call waits for: full values of the
/// parameters that come back, and with a declared exception of those that it keeps.
pub fn returns_give_replies()
    ensures replies { (c d : Module) (k : Calling) → ReturnsGiveReplies c d k }
{}

/// While a `call` that was placed is open, values are sound but for its `inout` arguments; where it comes back or is not
/// answered, they are sound with what is held behind Disconnected.
pub fn calls_keep_sound()
    ensures calls { (c : Module) (k : Calling) → CallsKeepSound c k }
{}

/// A reply that an open call waits for leaves values sound with what is held behind its outcome: the arguments that it sets
/// are full.
pub fn replies_keep_sound()
    ensures replies { (c : Module) (k : Calling) → RepliesKeepSound c k }
{}

/// What a typed `call` that finds what it needs wants to put is a message of the port to which its outport leads: its `in` and
/// `inout` parameters are full.
pub fn calls_are_messages()
    ensures messages { CallsAreMessages }
{}
