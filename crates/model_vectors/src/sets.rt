// Whether a word may be empty, what may begin and end one, and the followers of each position.
use super::run::has_sets;
use models::sets;
use models::tables::Sets;
use std::test::Fail;

/// `EMPTY`: the empty word alone.
#[test]
fn nothing(rt: HostRuntime) -> Result<(), Fail> {
    let expected = Sets {
        nullable: true,
        first: 0,
        last: 0,
    };
    has_sets(&rt, &[0], expected, &[])
}

/// `(a,b?)*`: a begins, a and b end; a or b after a, a after b.
#[test]
fn star(rt: HostRuntime) -> Result<(), Fail> {
    let expected = Sets {
        nullable: true,
        first: 0b1,
        last: 0b11,
    };
    has_sets(&rt, &[1, 1, 4, 2, 5], expected, &[0b11, 0b1])
}

/// `((a|b)+,c?)`: a and b begin, each ends; all three after a and after b, nothing after c.
#[test]
fn plus(rt: HostRuntime) -> Result<(), Fail> {
    let expected = Sets {
        nullable: false,
        first: 0b11,
        last: 0b111,
    };
    has_sets(&rt, &[1, 1, 3, 6, 1, 4, 2], expected, &[0b111, 0b111, 0])
}

/// `(a?,b)`: a and b begin, b ends; b after a.
#[test]
fn optional_front(rt: HostRuntime) -> Result<(), Fail> {
    let expected = Sets {
        nullable: false,
        first: 0b11,
        last: 0b10,
    };
    has_sets(&rt, &[1, 4, 1, 2], expected, &[0b10, 0])
}

/// Followers go as far as the list does: of `(a,b?)*` the first row only.
#[test]
fn short_list(rt: HostRuntime) -> Result<(), Fail> {
    let mut cells = [999];
    sets(&[1, 1, 4, 2, 5], 2, &mut cells)?;
    assert!(rt; cells[0] == 0b11);
    Ok(())
}
