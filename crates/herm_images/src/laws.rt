//! Laws of accepted programs, and of images that stand for programs.
ghost use Rattle.herm_images.specs.laws.AcceptedPrograms.{HeldFactsAreListed, AcceptedProgramsAreChecked};
ghost use Rattle.herm_images.specs.laws.RunningImages.{ReportsDescribePrograms};

/// What is held of variables is listed whole: of a closed set of facts each fact, and no other.
pub fn held_facts_are_listed()
    ensures { HeldFactsAreListed }
{}

/// What the check gives of the processes of an accepted program are checked modules of the program.
pub fn accepted_programs_are_checked()
    ensures { AcceptedProgramsAreChecked }
{}

/// The report of each run of an image that stands for a program describes a run of the program.
pub fn images_run_as_programs()
    ensures { ReportsDescribePrograms }
{}
