// Books and lines worked out by hand from their rules.
#![tactic(auto)]

#[cfg(test)]
mod books;
#[cfg(test)]
mod lines;
