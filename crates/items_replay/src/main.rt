// Replays the list of batch bodies (compare/README.md).
#![tactic(auto)]

use replay_lists::Bodies;

fn main(rt: HostRuntime) {
    replay_lists::run::<Bodies>(&rt);
}
