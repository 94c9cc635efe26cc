// The form of a turbo dossier as a grammar, in specs/: what `syntax` checks, and `turbo_lines` and `turbo` walk over. There is no code here.
#![tactic(auto)]
