// Loads, withdrawals, trials and comparisons on a shelf, worked out by hand from the rules, for names and for cues. Codes: 0 is the
// empty word, 1 the next symbol, 2 then, 3 either, 4 '?', 5 '*', 6 '+'.
#![tactic(auto)]

#[cfg(test)]
mod comparisons;
#[cfg(test)]
mod desk;
#[cfg(test)]
mod loads;
#[cfg(test)]
mod place_readers;
#[cfg(test)]
mod refusals;
#[cfg(test)]
mod rounds;
#[cfg(test)]
mod rows;
#[cfg(test)]
mod spoiled;
#[cfg(test)]
mod trials;
