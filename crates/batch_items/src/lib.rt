// How many items batches have, over histories: see specs/BatchItems.antt.
#![tactic(auto)]
