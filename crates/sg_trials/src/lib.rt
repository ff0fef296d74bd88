//! Trials over accepted specifications: what their records hold, their plans, and commands that are given again.
#![tactic(auto)]

#[cfg(test)]
mod again;
#[cfg(test)]
mod language;
#[cfg(test)]
mod loading;
#[cfg(test)]
mod plans;
#[cfg(test)]
mod records;
#[cfg(test)]
mod statements;
