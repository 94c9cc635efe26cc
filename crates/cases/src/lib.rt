// Document 01's cases P1 to P11, proved together as one table. There is no code here.
#![tactic(auto)]
