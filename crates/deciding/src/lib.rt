// Whether a lent list of records is good.
#![tactic(auto)]

pub mod good;
