//! Tests of the variables of points and of the instance values of groups.
#![tactic(auto)]

#[cfg(test)]
mod values;
#[cfg(test)]
mod variables;
