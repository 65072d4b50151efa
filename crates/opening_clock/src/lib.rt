// The clock that a clean opening takes, over histories: see specs/OpeningClock.antt.
#![tactic(auto)]
