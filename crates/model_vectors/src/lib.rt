// Models worked out by hand from the rules, and what each call must answer to them. Codes: 0 is the empty word, 1 the next symbol,
// 2 then, 3 either, 4 '?', 5 '*', 6 '+'.
#![tactic(auto)]

#[cfg(test)]
mod limits;
#[cfg(test)]
mod pairs;
#[cfg(test)]
mod refusals;
#[cfg(test)]
mod run;
#[cfg(test)]
mod sets;
#[cfg(test)]
mod trials;
