//! Tests of the layers on worked examples. They stand in a crate of their own, since a crate with tests is proved twice.
#![tactic(auto)]

#[cfg(test)]
mod day_files;
#[cfg(test)]
mod day_lines;
#[cfg(test)]
mod floors;
#[cfg(test)]
mod group_plans;
#[cfg(test)]
mod named_plans;
#[cfg(test)]
mod piles;
#[cfg(test)]
mod words;
