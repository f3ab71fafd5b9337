// Faults, names and cues worked out by hand from the rules.
#![tactic(auto)]

#[cfg(test)]
mod cues;
#[cfg(test)]
mod faults_shown;
#[cfg(test)]
mod names;
