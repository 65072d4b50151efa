// Replays the list of plain sums (compare/README.md).
#![tactic(auto)]

use replay_lists::Sums;

fn main(rt: HostRuntime) {
    replay_lists::run::<Sums>(&rt);
}
