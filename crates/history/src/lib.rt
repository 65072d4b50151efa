// Every history of the store: the model, calls and cuts, and the one theorem over any list of them.
// There is no code here: specs/ has the definitions and the statement, proofs/ the theorem.
#![tactic(auto)]
