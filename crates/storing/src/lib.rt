// Stores what a tree's class labels say: its class records.
#![tactic(auto)]

pub mod class_records;
