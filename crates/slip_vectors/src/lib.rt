// What is printed for books, worked out by hand from the rules.
#![tactic(auto)]

#[cfg(test)]
mod slips;
