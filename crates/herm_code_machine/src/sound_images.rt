// What the laws of sound systems ask of a machine, of the machine of images whose code is good; and those laws of it.

ghost use Rattle.std.specs.Prelude.{ℕ, Some, ◌≡◌};
ghost use Rattle.herm_model.specs.TypedPrograms.{main_start};
ghost use Rattle.herm_model.specs.Values.{Name};
ghost use Rattle.herm_journal.specs.Messages.{CellWant};
ghost use Rattle.herm_instructions.specs.Images.{Image};
ghost use Rattle.herm_sound.specs.SoundMachines.{BeginsSound, GoesOn, HasFor, KeepsWaiting, StaysSound};
ghost use Rattle.herm_code_machine.specs.ReadyCode.{labelled_image};
ghost use Rattle.herm_code_machine.specs.CodeInstance.{code_machine};
ghost use Rattle.herm_code_machine.specs.CodeLocal.{IsSoundCodeIn};
ghost use Rattle.herm_code_machine.specs.CodeStates.{CodeState};
ghost use Rattle.herm_code_machine.specs.CodeTypes.{first_type, new_type};
ghost use Rattle.herm_code_machine.specs.laws.GoodImageLaws.{IsGoodOver};
ghost use Rattle.herm_code_machine.specs.laws.SoundImageLaws.{ImageActionsAreDone, ImageActionsAreDoneOnce, ImageNoneIsStuck, ImageOpeningIsSound, ImageProcessesHaveCode, ImageRunsAreSound, ImageRunsEnd, ImageRunsKeepSound, ImageStatesAlong, ImageStepsKeepSound, ImageStepsKeepTypes, ImagesKeepStanding};

/// A process begins sound within itself and with no call open, and stays so along local steps and along each answer with which what
/// suits comes in; a call opens where its callmessage is placed, and closes where its reply is heard.
pub fn processes_stay_sound()
    ensures processes { (exceptions : ℕ) (image : Image) (main : ℕ) → IsGoodOver exceptions image → StaysSound (code_machine (labelled_image image main)) (IsSoundCodeIn (labelled_image image main)) }
{}

/// A local step that is next is there; where an action is next something is wanted; and each answer to it with which what suits comes in
/// is taken.
pub fn processes_go_on()
    ensures onward { (exceptions : ℕ) (image : Image) (main : ℕ) → IsGoodOver exceptions image → GoesOn (code_machine (labelled_image image main)) (IsSoundCodeIn (labelled_image image main)) }
{}

/// What a process wants a place for is what it has: a message goes to the port of an outport that it has, and is one of that port; it looks
/// for messages at inports that it has, closes one that it has, and answers a call whose callmessage it has.
pub fn wants_are_for_what_is_there()
    ensures wants { (exceptions : ℕ) (image : Image) (main : ℕ) → IsGoodOver exceptions image → (x : CodeState Name) (want : CellWant Name) → IsSoundCodeIn (labelled_image image main) x → (code_machine (labelled_image image main)).wanted x ≡ Some want → HasFor (code_machine (labelled_image image main)) (first_type (labelled_image image main)) (new_type (labelled_image image main)) x want }
{}

/// Of each kind of inports and callmessages that are not finalised a process begins with those of its port, and has as many behind each
/// local step; and behind an answer with which what suits comes in, those before with what came in and what it made are those behind it
/// with what went out and what it ended.
pub fn waiting_is_counted()
    ensures counts { (exceptions : ℕ) (image : Image) (main : ℕ) → IsGoodOver exceptions image → KeepsWaiting (code_machine (labelled_image image main)) (IsSoundCodeIn (labelled_image image main)) }
{}

/// A system of an image whose main has a port of the type main_start begins: with a process of main, and a first message of its port's
/// type, whose cells stand at places of their types.
pub fn main_begins_sound()
    ensures begins { (exceptions : ℕ) (image : Image) (main : ℕ) → IsGoodOver exceptions image → first_type (labelled_image image main) main ≡ Some main_start → BeginsSound (code_machine (labelled_image image main)) (first_type (labelled_image image main)) }
{}

/// Inports, outports and callmessages stay at places of their types, in variables, in slots and, of outports, on the stack: as a process
/// begins, along local steps, and along each answer to what it wants, where what comes in suits and stands so, and what it makes; and what
/// goes out stands so too.
pub fn places_stay_typed()
    ensures standing { ImagesKeepStanding }
{}

/// What an event leaves of a sound image state is a sound image state, whatever the event and whatever wrote the code; and the types of the
/// ports stay. So is what a list of events leaves.
pub fn events_keep_images_sound()
    ensures steps { ImageStepsKeepSound }
    ensures types { ImageStepsKeepTypes }
    ensures runs { ImageRunsKeepSound }
{}

/// Where the port of main is of the type main_start, the state at the start is sound, with any text as the argument; so is each state that
/// events lead to from there, whatever the schedule, and each along a journal.
pub fn runs_of_images_are_sound()
    ensures opening { ImageOpeningIsSound }
    ensures runs { ImageRunsAreSound }
    ensures along { ImageStatesAlong }
{}

/// No process of a sound image state is stuck: each that is to make a local step makes it, each that can act can do so at some place, and
/// at each place where something of what it wants can be done; and each that can do nothing of what it wants waits for a message at open ports,
/// or for the reply to its open call. Each has code, by which it is sound within itself.
pub fn no_process_of_an_image_is_stuck()
    ensures none { ImageNoneIsStuck }
    ensures code { ImageProcessesHaveCode }
{}

/// In a sound image state a port that is closed was open, and a call that is answered is open and has no answer yet. So along a run no port is
/// closed twice, and no call is answered twice; and one that is open was answered, or has its callmessage.
pub fn actions_of_images_are_done_once()
    ensures done { ImageActionsAreDone }
    ensures once { ImageActionsAreDoneOnce }
{}

/// The limits bound the events of a run, and so many rounds, and one more, reach a state in which no process can step.
pub fn runs_of_images_end()
    ensures end { ImageRunsEnd }
{}
