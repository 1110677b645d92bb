// Laws of the statement table, computed at one statement of each form.

ghost use Rattle.herm_model.specs.examples.TableExamples.{AssignRow, CallRow, CaseRow, ComponentRow, ConnectRow, CreateRow, DiscardRow, DissolveRow, ForRow, GetRow, IfRow, InsertRow, LeaveRow, MessageRow, MoveRow, NewPortRow, NewRow, RaiseRow, ReceiveRow, RemoveRow, ReturnByNothingRow, ReturnByRow, ReturnRow, RevealRow, SelectRow, SendRow, UniteRow, UnwrapRow, WhileRow, WrapRow};

/// What the forms that make, move and take apart values need, make and take away.
pub fn values_are_set_and_moved()
    ensures assign_row { AssignRow }
    ensures component_row { ComponentRow }
    ensures move_row { MoveRow }
    ensures message_row { MessageRow }
    ensures new_row { NewRow }
    ensures new_port_row { NewPortRow }
    ensures discard_row { DiscardRow }
    ensures unite_row { UniteRow }
    ensures dissolve_row { DissolveRow }
    ensures reveal_row { RevealRow }
    ensures case_row { CaseRow }
    ensures wrap_row { WrapRow }
    ensures unwrap_row { UnwrapRow }
{}

/// The same of the forms on tables.
pub fn rows_go_in_and_out()
    ensures insert_row { InsertRow }
    ensures remove_row { RemoveRow }
    ensures get_row { GetRow }
    ensures for_row { ForRow }
{}

/// The same of the forms on ports and callmessages.
pub fn messages_go_and_come()
    ensures connect_row { ConnectRow }
    ensures create_row { CreateRow }
    ensures send_row { SendRow }
    ensures receive_row { ReceiveRow }
    ensures select_row { SelectRow }
    ensures call_row { CallRow }
    ensures return_row { ReturnRow }
    ensures return_by_row { ReturnByRow }
    ensures return_by_nothing_row { ReturnByNothingRow }
{}

/// The same of the forms that only lead control.
pub fn tests_change_nothing()
    ensures if_row { IfRow }
    ensures while_row { WhileRow }
    ensures raise_row { RaiseRow }
    ensures leave_row { LeaveRow }
{}
