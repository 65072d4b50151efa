// The pager's public calls that the theorem does not name: each is one of those that it does.
// There is no code here: specs/ has the statements, proofs/ the theorems.
#![tactic(auto)]
