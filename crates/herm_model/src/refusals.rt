// Laws that labels and lists of refusals exist.

ghost use Rattle.herm_model.specs.laws.LabelsExist.{HoldsOrLacks, ExactLabelsExist, RefusalsExist, MissingExists};

/// At each statement of each flow a fact is held on every control path to it, or there is a control path on which it is
/// not held. So each flow has exact labels.
pub fn exact_labels_exist()
    ensures decided { HoldsOrLacks }
    ensures labels { ExactLabelsExist }
{}

/// Each process has a list of what is missing in it, and so has each list of demands of a flow.
pub fn refusals_exist()
    ensures demands { RefusalsExist }
    ensures processes { MissingExists }
{}
