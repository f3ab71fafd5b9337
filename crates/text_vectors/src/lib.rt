// Content models worked out by hand from the rules, and what the reader must answer to each.
#![tactic(auto)]

#[cfg(test)]
mod limits;
#[cfg(test)]
mod pieces;
#[cfg(test)]
mod readings;
#[cfg(test)]
mod refusals;
#[cfg(test)]
mod run;
