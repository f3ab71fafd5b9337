// Codes that are those of no model, with the index of the first code at fault, or their number where only the end is.
use super::run::refuses;
use faults::Fault;

/// A list of codes, a number of symbols, and where the codes are at fault.
struct Wrong {
    codes: &'static [u8],
    symbols: usize,
    at: usize,
}

#[rattlefmt::skip]
const WRONG: &[Wrong] = &[
    // no code at all
    Wrong { codes: &[], symbols: 0, at: 0 },
    // a code above 6
    Wrong { codes: &[1, 7], symbols: 1, at: 1 },
    // a lone `then`, and one with one part
    Wrong { codes: &[2], symbols: 0, at: 0 },
    Wrong { codes: &[1, 2], symbols: 1, at: 1 },
    // `*` with no part
    Wrong { codes: &[5, 1], symbols: 1, at: 0 },
    // a symbol that is not there
    Wrong { codes: &[1, 1, 2], symbols: 1, at: 1 },
    // symbols left over
    Wrong { codes: &[1], symbols: 2, at: 1 },
    Wrong { codes: &[0], symbols: 1, at: 1 },
    // two parts left over
    Wrong { codes: &[1, 1], symbols: 2, at: 2 },
];

#[test]
fn malformed(rt: HostRuntime) {
    for wrong in WRONG {
        refuses(
            &rt,
            wrong.codes,
            wrong.symbols,
            Fault::Malformed { at: wrong.at },
        );
    }
}
