// Replays the list of logs (compare/README.md).
#![tactic(auto)]

use replay_lists::Logs;

fn main(rt: HostRuntime) {
    replay_lists::run::<Logs>(&rt);
}
