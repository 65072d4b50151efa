// Replays the list of main headers (compare/README.md).
#![tactic(auto)]

use replay_lists::Headers;

fn main(rt: HostRuntime) {
    replay_lists::run::<Headers>(&rt);
}
