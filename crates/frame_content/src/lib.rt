//! What a frame holds, apart from how it is spelled: its records' labels, and where their links lead.
//! These are definitions alone.
#![tactic(auto)]
