// Codes and names worked out by hand from the rules, and what the writer must answer to each.
#![tactic(auto)]

#[cfg(test)]
mod refusals;
#[cfg(test)]
mod run;
#[cfg(test)]
mod texts;
