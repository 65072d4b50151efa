// The numbers of characters that batches carry, over histories: see specs/BatchChars.antt.
#![tactic(auto)]
