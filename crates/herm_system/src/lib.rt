// What processes do together, over any machine: systems and their events, runs, journals, rounds, the ledger, how runs end,
// sound states, the state behind a diary, and what a report says of a run. The definitions stand in specs/.
#![tactic(auto)]
