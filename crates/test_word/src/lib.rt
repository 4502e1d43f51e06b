//! Worked schedules of the machine of words.
#![tactic(auto)]

#[cfg(test)]
mod schedules;
#[cfg(test)]
mod worked;
