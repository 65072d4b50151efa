// What every opening compares with a frame's stored sum: see specs/FrameSums.antt.
#![tactic(auto)]
