// How many pages can be staged, over histories: see specs/StagingLimit.antt.
#![tactic(auto)]
