//! Tests of `check` and of what it is made of: the rules, and the lines of broken rules.
#![tactic(auto)]

#[cfg(test)]
mod bundle_rules;
#[cfg(test)]
mod checking;
#[cfg(test)]
mod failures;
#[cfg(test)]
mod message_rules;
#[cfg(test)]
mod nodes;
#[cfg(test)]
mod rows;
#[cfg(test)]
mod rule_lines;
