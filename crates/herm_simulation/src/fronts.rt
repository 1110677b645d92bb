// The fronts of forms.

ghost use Rattle.herm_simulation.specs.laws.FrontLaws.{FrontsDoForms};

/// The front of each form that is a local step does what the form does: it leads to the edge of the outcome that the form comes to, with the frame that
/// the form leaves.
pub fn fronts_do_forms()
    ensures fronts { FrontsDoForms }
{}
