// A dossier in parts against the whole one: statements in specs/, theorems in proofs/. There is no code here.
#![tactic(auto)]
