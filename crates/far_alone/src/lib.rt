//! What one thread's calls over plain words come to: definitions and lemmas that name no far side, for the crates that
//! make such calls (`far_replay`, `far_private`). There is no code.
#![tactic(auto)]
