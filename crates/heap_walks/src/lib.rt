//! What walks over the objects of a heap share: the words that a walk may change, the objects of a page one after another, and
//! lists of addresses in the scratch area.
#![tactic(auto)]
