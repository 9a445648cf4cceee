//! What no contract states, and neither programs nor callers show: texts of faults, calls that no program makes, a run over
//! files of a caller's own, and a path of 100,000 segments. Nothing here is called from elsewhere.
#![tactic(auto)]

#[cfg(test)]
mod deep;
#[cfg(test)]
mod expect;
#[cfg(test)]
mod faults;
#[cfg(test)]
mod loads;
#[cfg(test)]
mod parts;
#[cfg(test)]
mod runs;
#[cfg(test)]
mod tables;
#[cfg(test)]
mod verdicts;
