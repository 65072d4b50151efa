// Replays the list of frames (compare/README.md).
#![tactic(auto)]

use replay_lists::Frames;

fn main(rt: HostRuntime) {
    replay_lists::run::<Frames>(&rt);
}
