// Document 01's starred cases: see specs/Cases.antt.
#![tactic(auto)]
