// Programs to which the laws apply.

ghost use Rattle.herm_source.specs.examples.CallPrograms.{kept_parameter};
ghost use Rattle.herm_source.specs.examples.CheckedExamples.{nested_loops};
ghost use Rattle.herm_source.specs.examples.Programs.{empty_body, refused_insert, two_senders, waiting_select};
ghost use Rattle.herm_checked.specs.examples.RunningPrograms.{raises_alone, ring_of_three};
ghost use Rattle.herm_translated.specs.examples.LeavingPrograms.{raised_out_of_loops, opened_again, arms_turned, sends_part};
ghost use Rattle.herm_simulation.specs.examples.TranslatedExamples.{IsTranslatedByRounds};

/// A ring of three processes, two senders with three items, a call that is answered by an exception with a parameter that it keeps, loops within loops that are left early, an insert
/// whose exception is handled, a select, one statement that raises, an exception out of two loops, a process that begins without its port, an empty body, a `case` whose arms are turned, and a send of a part
/// are checked, and their images are good: so all that is said of translated programs holds of them.
pub fn examples_are_translated()
    ensures ring { IsTranslatedByRounds 7 ring_of_three }
    ensures senders { IsTranslatedByRounds 7 (two_senders 3) }
    ensures kept { IsTranslatedByRounds 8 kept_parameter }
    ensures nested { IsTranslatedByRounds 7 nested_loops }
    ensures tried { IsTranslatedByRounds 7 refused_insert }
    ensures select { IsTranslatedByRounds 7 waiting_select }
    ensures raises { IsTranslatedByRounds 7 raises_alone }
    ensures left { IsTranslatedByRounds 7 raised_out_of_loops }
    ensures opened { IsTranslatedByRounds 7 opened_again }
    ensures empty { IsTranslatedByRounds 7 empty_body }
    ensures arms { IsTranslatedByRounds 7 arms_turned }
    ensures part { IsTranslatedByRounds 7 sends_part }
{}
