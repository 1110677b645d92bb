// An example, computed: two processes, of which one waits for the other's message.

ghost use Rattle.std.specs.Prelude.{◌≡◌, [], ◌∷◌, None, option_map, Some};
ghost use Rattle.herm_system.specs.Rounds.{rounds};
ghost use Rattle.herm_waking.specs.KeptRounds.{kept_rounds, kept_turns, scheduled};
ghost use Rattle.herm_waking.specs.examples.Pairs.{entries_after, kept_after, pair, pair_begins};

/// Process 1 can step at the start. In the first round it makes process 2, which has its turn in it, finds its port empty, and is noted there;
/// in the second it sends a message there, which wakes process 2, whose turn is behind that of process 1 in the same round; then none is kept.
/// A schedule that names processes that are not there, or wait, or have ended comes to the same.
pub fn one_waits_for_the_other()
    ensures start { kept_after (Some pair_begins) ≡ Some (record { ready = 1 ∷ []; waiters = None ∷ None ∷ [] }, 0) }
    ensures first_round { kept_after (kept_turns 4 pair 1 pair_begins) ≡ Some (record { ready = 1 ∷ []; waiters = None ∷ None ∷ Some 2 ∷ [] }, 1) }
    ensures all_rounds { kept_after (kept_rounds 3 pair pair_begins) ≡ Some (record { ready = []; waiters = None ∷ None ∷ None ∷ [] }, 3) }
    ensures schedule { kept_after (scheduled (2 ∷ 1 ∷ 7 ∷ 2 ∷ 1 ∷ 2 ∷ 2 ∷ 1 ∷ []) pair pair_begins) ≡ Some (record { ready = []; waiters = None ∷ None ∷ None ∷ [] }, 3) }
    ensures one_worker { entries_after (kept_rounds 3 pair pair_begins) ≡ option_map (λ r. r.journal) (rounds 3 pair pair_begins.run) }
{}
