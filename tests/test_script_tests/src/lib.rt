//! Tests of what no contract of scripts says: that the definitions mean the forms of rules, that a
//! line of each form is read if there is memory, and what a fault says.
//!
//! Uses script_rules and test_script. Read first: `rules`.
#![tactic(auto)]

#[cfg(test)]
mod faults;
#[cfg(test)]
mod handling;
#[cfg(test)]
mod rules;
#[cfg(test)]
mod script_refusals;
