// What a preview of a commit tells, over histories: see specs/CommitPreview.antt.
#![tactic(auto)]
