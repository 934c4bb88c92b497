//! Rules of vCalendar 1.0 and their counterparts of RFC 5545: both choose the same moments, and the counterpart of a valid
//! rule is a valid rule. Only proofs stand here, for every crate whose laws go through a counterpart.
#![tactic(auto)]
