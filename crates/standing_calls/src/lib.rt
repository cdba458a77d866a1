//! What the calls of a thread do to words that stand for a state: the relations that the crates above state their steps by.
#![tactic(auto)]
