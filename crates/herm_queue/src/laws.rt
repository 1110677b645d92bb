//! Laws of cells: they are the language's places.

ghost use Rattle.herm_queue.specs.SeenCells.{MainPortsOpen, OtherPortsOpen, ReplyCellsOpen, BooksOpen, ActionsFit, ActionsLead, ActionsAreRecorded, ActionsAreStamped, HoldingsAreTold};

/// Each cell opens as its place does: port 1 with the first message, the others without one.
pub fn cells_open_as_places()
    ensures main_port { MainPortsOpen }
    ensures other_ports { OtherPortsOpen }
    ensures reply_cells { ReplyCellsOpen }
    ensures books { BooksOpen }
{}

/// What is done at cells and held there, between the values of the code, is what is done and held at places of the
/// language between the values that these are, and it is recorded and stamped as the language does it.
pub fn cells_are_places()
    ensures fit { ActionsFit }
    ensures lead { ActionsLead }
    ensures recorded { ActionsAreRecorded }
    ensures stamped { ActionsAreStamped }
    ensures told { HoldingsAreTold }
{}
