// Laws of edges and beginnings: what they leave is what the facts of their target say.

ghost use Rattle.herm_forms.specs.Modules.{Module};
ghost use Rattle.herm_forms.specs.laws.EdgeLaws.{ClearingIsSound, EdgesAreExact, EdgesArrive, PlainFormsAreSound, SendsAreSound, SettingIsSound};

/// Where sound values have all facts of an edge's target, and these are closed, the edge leaves sound values with
/// exactly these facts. Here and below types are within the limit of depth.
pub fn edges_leave_what_is_held()
    ensures exact { EdgesAreExact }
{}

/// With exact labels of a well formed body, at a point that a control path reaches: values that are sound with what
/// is held behind an edge are sound behind it with the facts of its target.
pub fn edges_arrive_soundly()
    ensures arrive { EdgesArrive }
{}

/// Where nothing is left at a path, the values stay sound without its facts.
pub fn clearing_is_sound()
    ensures clear { ClearingIsSound }
{}

/// Where sound values have a place at a path, and a full value of the path's type is set there, they are sound with
/// its full facts in place of those at the path and below it.
pub fn setting_is_sound()
    ensures set { SettingIsSound }
{}

/// Behind `discard`, the tests of `if` and `while`, `raise` and `leave` sound values are sound with what the
/// statement table says is held.
pub fn plain_forms_are_sound()
    ensures forms { (c : Module) → PlainFormsAreSound c }
{}

/// So they are behind a `send` whose message was placed, where what the message held beyond its declared facts was
/// dropped before.
pub fn sends_are_sound()
    ensures sends { SendsAreSound }
{}
