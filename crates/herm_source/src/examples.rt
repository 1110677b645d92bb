// Runs of small programs, computed from the definitions. The comments on the programs have them as they are written.

ghost use Rattle.std.specs.Prelude.{◌≡◌, List, [], ◌∷◌, Some, codes};
ghost use Rattle.herm_system.specs.RunTexts.{plainly, with_summary, the_journal};
ghost use Rattle.herm_source.specs.examples.CallPrograms.{calls_both_ways, discarded_call, kept_parameter, returned_call, untaken_call};
ghost use Rattle.herm_source.specs.examples.Programs.{deep_polymorph, empty_body, greeting, idle_process, left_loop, one_branch, one_too_many, own_queue, port_in_message, ports_until_full, refused_insert, two_senders, waiting_select};
ghost use Rattle.std.specs.Prelude.{ℤ};
ghost use Rattle.herm_source.specs.examples.ComponentPrograms.{taken_apart};
ghost use Rattle.herm_source.specs.examples.RunExamples.{console_with, ending, limited, in_lines, ready_program};
ghost use Rattle.herm_source.specs.Instance.{IsSound};

/// A greeting is one line on the console, and four of the six cells are finalised.
pub fn greeting_is_shown()
    ensures at_the_end { ending 60 with_summary (limited 1000 4 4) greeting ≡ Some (record {
      status = 0;
      text = in_lines (
          codes "hi"
          ∷ codes "summary: processes 1 ended 1 waiting 0 stopped 0"
          ∷ codes "summary: ports 2 open 1"
          ∷ codes "summary: steps 3 actions 3"
          ∷ codes "summary: cells made 6 held 1 queued 1 finalised 4" ∷ []);
    }) }
{}

/// With an empty body the first message is finalised from the queue.
pub fn empty_body_ends()
    ensures at_the_end { ending 60 with_summary (limited 1000 4 4) empty_body ≡ Some (record {
      status = 0;
      text = in_lines (
          codes "summary: processes 1 ended 1 waiting 0 stopped 0"
          ∷ codes "summary: ports 2 open 1"
          ∷ codes "summary: steps 0 actions 1"
          ∷ codes "summary: cells made 5 held 1 queued 0 finalised 4" ∷ []);
    }) }
{}

/// What one branch sets is finalised where the branches join.
pub fn branch_is_joined()
    ensures at_the_end { ending 60 with_summary (limited 1000 4 4) one_branch ≡ Some (record {
      status = 0;
      text = in_lines (
          codes "summary: processes 1 ended 1 waiting 0 stopped 0"
          ∷ codes "summary: ports 2 open 1"
          ∷ codes "summary: steps 4 actions 2"
          ∷ codes "summary: cells made 6 held 1 queued 0 finalised 5" ∷ []);
    }) }
{}

/// The same, stopped by a limit of three steps: what was set is finalised by then.
pub fn branch_is_stopped()
    ensures at_the_end { ending 60 with_summary (limited 3 4 4) one_branch ≡ Some (record {
      status = 8;
      text = in_lines (
          codes "hermes: process 1 spent 3 steps"
          ∷ codes "summary: processes 1 ended 0 waiting 0 stopped 1"
          ∷ codes "summary: ports 2 open 2"
          ∷ codes "summary: steps 3 actions 1"
          ∷ codes "summary: cells made 6 held 5 queued 0 finalised 1" ∷ []);
    }) }
{}

/// A refused insert keeps its row.
pub fn insert_is_refused()
    ensures at_the_end { ending 60 with_summary (limited 1000 4 4) refused_insert ≡ Some (record {
      status = 0;
      text = in_lines (
          codes "1"
          ∷ codes "summary: processes 1 ended 1 waiting 0 stopped 0"
          ∷ codes "summary: ports 2 open 1"
          ∷ codes "summary: steps 10 actions 3"
          ∷ codes "summary: cells made 11 held 1 queued 1 finalised 9" ∷ []);
    }) }
{}

/// A loop that is left finalises the copies of rows that it has not visited.
pub fn loop_is_left()
    ensures at_the_end { ending 60 with_summary (limited 1000 4 4) left_loop ≡ Some (record {
      status = 0;
      text = in_lines (
          codes "1"
          ∷ codes "summary: processes 1 ended 1 waiting 0 stopped 0"
          ∷ codes "summary: ports 2 open 1"
          ∷ codes "summary: steps 12 actions 3"
          ∷ codes "summary: cells made 15 held 1 queued 1 finalised 13" ∷ []);
    }) }
{}

/// A callee that discards its callmessage answers with nothing.
pub fn call_is_discarded()
    ensures at_the_end { ending 60 with_summary (limited 1000 4 4) discarded_call ≡ Some (record {
      status = 0;
      text = in_lines (
          codes "q"
          ∷ codes "summary: processes 2 ended 2 waiting 0 stopped 0"
          ∷ codes "summary: ports 3 open 1"
          ∷ codes "summary: steps 8 actions 9"
          ∷ codes "summary: cells made 11 held 1 queued 1 finalised 9" ∷ []);
    }) }
{}

/// A callee that ends without taking its callmessage: the call finds the port closed.
pub fn call_is_untaken()
    ensures at_the_end { ending 60 with_summary (limited 1000 4 4) untaken_call ≡ Some (record {
      status = 0;
      text = in_lines (
          codes "q"
          ∷ codes "summary: processes 2 ended 2 waiting 0 stopped 0"
          ∷ codes "summary: ports 3 open 1"
          ∷ codes "summary: steps 6 actions 6"
          ∷ codes "summary: cells made 11 held 1 queued 1 finalised 9" ∷ []);
    }) }
{}

/// A callee that returns its callmessage gives the value back.
pub fn call_is_returned()
    ensures at_the_end { ending 60 with_summary (limited 1000 4 4) returned_call ≡ Some (record {
      status = 0;
      text = in_lines (
          codes "w"
          ∷ codes "summary: processes 2 ended 2 waiting 0 stopped 0"
          ∷ codes "summary: ports 3 open 1"
          ∷ codes "summary: steps 8 actions 9"
          ∷ codes "summary: cells made 11 held 1 queued 1 finalised 9" ∷ []);
    }) }
{}

/// A callee that answers with an exception gives back the parameter that is kept for it.
pub fn parameter_is_kept()
    ensures at_the_end { ending 60 with_summary (limited 1000 4 4) kept_parameter ≡ Some (record {
      status = 0;
      text = in_lines (
          codes "w"
          ∷ codes "summary: processes 2 ended 2 waiting 0 stopped 0"
          ∷ codes "summary: ports 3 open 1"
          ∷ codes "summary: steps 8 actions 9"
          ∷ codes "summary: cells made 11 held 1 queued 1 finalised 9" ∷ []);
    }) }
{}

/// With three ports besides the console's the third new one is refused.
pub fn ports_are_full()
    ensures at_the_end { ending 60 with_summary (limited 1000 4 3) ports_until_full ≡ Some (record {
      status = 0;
      text = in_lines (
          codes "full"
          ∷ codes "summary: processes 1 ended 1 waiting 0 stopped 0"
          ∷ codes "summary: ports 4 open 1"
          ∷ codes "summary: steps 6 actions 8"
          ∷ codes "summary: cells made 8 held 1 queued 1 finalised 6" ∷ []);
    }) }
{}

/// An input port in its own queue stays there.
pub fn own_queue_is_held()
    ensures at_the_end { ending 60 with_summary (limited 1000 4 4) own_queue ≡ Some (record {
      status = 0;
      text = in_lines (
          codes "summary: processes 1 ended 1 waiting 0 stopped 0"
          ∷ codes "summary: ports 3 open 2"
          ∷ codes "summary: steps 4 actions 3"
          ∷ codes "summary: cells made 8 held 1 queued 2 finalised 5" ∷ []);
    }) }
{}

/// A port is closed with three messages, of which one holds a port with two.
pub fn port_in_message_is_closed()
    ensures at_the_end { ending 60 with_summary (limited 1000 4 4) port_in_message ≡ Some (record {
      status = 0;
      text = in_lines (
          codes "summary: processes 1 ended 1 waiting 0 stopped 0"
          ∷ codes "summary: ports 4 open 1"
          ∷ codes "summary: steps 17 actions 10"
          ∷ codes "summary: cells made 16 held 1 queued 0 finalised 15" ∷ []);
    }) }
{}

/// Two processes that call each other wait for a reply each.
pub fn both_wait()
    ensures at_the_end { ending 60 with_summary (limited 1000 4 8) calls_both_ways ≡ Some (record {
      status = 7;
      text = in_lines (
          codes "hermes: process 1 waits for a reply"
          ∷ codes "summary: processes 2 ended 0 waiting 2 stopped 0"
          ∷ codes "summary: ports 5 open 5"
          ∷ codes "summary: steps 12 actions 7"
          ∷ codes "summary: cells made 16 held 9 queued 7 finalised 0" ∷ []);
    }) }
{}

/// A select waits on its ports in written order.
pub fn select_waits()
    ensures at_the_end { ending 60 with_summary (limited 1000 4 4) waiting_select ≡ Some (record {
      status = 7;
      text = in_lines (
          codes "hermes: process 1 waits on port 3 2"
          ∷ codes "summary: processes 1 ended 0 waiting 1 stopped 0"
          ∷ codes "summary: ports 4 open 4"
          ∷ codes "summary: steps 2 actions 2"
          ∷ codes "summary: cells made 7 held 4 queued 3 finalised 0" ∷ []);
    }) }
{}

/// Sixteen polymorphs nest, and a seventeenth is refused.
pub fn polymorphs_are_deep()
    ensures at_the_end { ending 120 plainly (limited 1000 4 4) deep_polymorph ≡ Some (record {
      status = 0;
      text = in_lines (
          codes "16" ∷ []);
    }) }
{}

/// Values are taken apart: each of `reveal`, `case`, `dissolve`, `unwrap`, `get` and `remove` goes well, and each that has an exception
/// comes to it; so does `raise`, within reach of a handler, and then beyond, where it ends the process.
pub fn values_are_taken_apart()
    ensures at_the_end { ending 120 plainly (limited 1000 4 4) taken_apart ≡ Some (record {
      status = 6;
      text = in_lines (
          codes "reveal"
          ∷ codes "a"
          ∷ codes "b"
          ∷ codes "unwrap"
          ∷ codes "get"
          ∷ codes "remove"
          ∷ codes "raise"
          ∷ codes "hermes: main ended by NotFound" ∷ []);
    }) }
{}

/// With four ports besides the console's none is refused.
pub fn ports_suffice()
    ensures at_the_end { ending 60 plainly (limited 1000 4 4) ports_until_full ≡ Some (record {
      status = 0;
      text = in_lines (
          []);
    }) }
{}

/// One more than the greatest integer is Overflow, which ends the process.
pub fn sum_is_refused()
    ensures at_the_end { ending 60 plainly (limited 1000 4 4) one_too_many ≡ Some (record {
      status = 6;
      text = in_lines (
          codes "hermes: main ended by Overflow" ∷ []);
    }) }
{}

/// The journal of the greeting.
pub fn greeting_is_recorded()
    ensures journal { ending 60 the_journal (limited 1000 4 4) greeting ≡ Some (record {
      status = 0;
      text = in_lines (
          codes "journal: 1 1 port 1 take 0 {\"\",>0}"
          ∷ codes "journal: 2 1 port 0 put 0 \"hi\""
          ∷ codes "journal: 3 1 port 1 close 0" ∷ []);
    }) }
{}

/// A process that takes nothing begins with the stamp of the entry that made it.
pub fn idle_process_is_recorded()
    ensures journal { ending 60 the_journal (limited 1000 4 4) idle_process ≡ Some (record {
      status = 0;
      text = in_lines (
          codes "journal: 1 1 port 1 take 0 {\"\",>0}"
          ∷ codes "journal: 2 1 book process 2 2 0"
          ∷ codes "journal: 3 1 port 1 close 0"
          ∷ codes "journal: 3 2 port 2 close 0" ∷ []);
    }) }
{}

/// The journal of a call that is answered by an exception with a parameter that is kept.
pub fn kept_parameter_is_recorded()
    ensures journal { ending 60 the_journal (limited 1000 4 4) kept_parameter ≡ Some (record {
      status = 0;
      text = in_lines (
          codes "journal: 1 1 port 1 take 0 {\"\",>0}"
          ∷ codes "journal: 2 1 book process 2 2 0"
          ∷ codes "journal: 3 1 port 2 put 0 (1,0:\"q\",\"w\")"
          ∷ codes "journal: 4 2 port 2 take 0 (1,0:\"q\",\"w\")"
          ∷ codes "journal: 5 2 reply 1 answer 0 raise Busy \"w\""
          ∷ codes "journal: 6 1 reply 1 hear 0 raise Busy \"w\""
          ∷ codes "journal: 6 2 port 2 close 0"
          ∷ codes "journal: 7 1 port 0 put 0 \"w\""
          ∷ codes "journal: 8 1 port 1 close 0" ∷ []);
    }) }
{}

/// Two senders and a receiver: of each sender the items come in order. With N items each the steps are 24N + 25, the
/// actions 4N + 13, and the cells made 12N + 23.
pub fn items_come_in_order()
    ensures at_the_end { ending 200 with_summary (limited 1000 4 8) (two_senders 3) ≡ Some (record {
      status = 0;
      text = in_lines (
          codes "3 3"
          ∷ codes "summary: processes 3 ended 3 waiting 0 stopped 0"
          ∷ codes "summary: ports 5 open 1"
          ∷ codes "summary: steps 97 actions 25"
          ∷ codes "summary: cells made 59 held 1 queued 1 finalised 57" ∷ []);
    }) }
{}

/// A state in which an integer is queued at the console is not sound: the console takes strings.
pub fn integers_at_the_console_are_unsound()
    ensures refused { (n : ℤ) → IsSound (ready_program greeting) (console_with n) → ⊥ }
{}
