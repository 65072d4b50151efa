// Replays the list of texts (compare/README.md).
#![tactic(auto)]

use replay_lists::Texts;

fn main(rt: HostRuntime) {
    replay_lists::run::<Texts>(&rt);
}
