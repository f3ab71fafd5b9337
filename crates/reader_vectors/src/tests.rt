use super::OneWord;
use faults::Fault;
use readers::limit::Limit;
use readers::skip::Skip;
use readers::{Reader, takes};
use symbols::cue_rows::CueRow;
use symbols::name_rows::NameRow;

fn cue(status: u8, datum: u8) -> CueRow {
    CueRow { status, datum }
}

#[test]
fn greatest_limit_over_65_states(rt: HostRuntime) {
    let word = [cue(144, 60); 64];
    let reader = OneWord::new(&word);
    assert!(rt; reader.states() == 65);
    assert!(rt; Limit::fit(&reader, 62) == Ok(()));
    assert!(rt; Limit::fit(&reader, 63) == Err(Fault::Unfit { greatest: 62 }));
    let layer = Limit::new(reader, 63);
    assert!(rt; layer.limit() == 62);
    assert!(rt; layer.states() == 4095);
}

#[test]
fn order_of_layers(rt: HostRuntime) {
    let a = NameRow::of(b"a");
    let x = NameRow::of(b"x-t");
    let model = [a];
    let word = [a, x, x];
    assert!(rt; takes(&Skip::new(Limit::new(OneWord::new(&model), 1)), &word));
    assert!(rt; !takes(&Limit::new(Skip::new(OneWord::new(&model)), 1), &word));
}

#[test]
fn states_of_a_limit(rt: HostRuntime) {
    let a = NameRow::of(b"a");
    let model = [a];
    let layer = Limit::new(OneWord::new(&model), 1);
    assert!(rt; layer.states() == 4);
    assert!(rt; layer.start() == 0);
    for (state, next) in [(0, Some(3)), (2, None), (4, None)] {
        assert!(rt; layer.step(state, &a) == next);
    }
    for (state, ending) in [(3, true), (5, false)] {
        assert!(rt; layer.is_ending(state) == ending);
    }
}

#[test]
fn states_of_skip(rt: HostRuntime) {
    let x = NameRow::of(b"x-t");
    let model = [NameRow::of(b"a")];
    let layer = Skip::new(OneWord::new(&model));
    assert!(rt; layer.states() == 2);
    assert!(rt; layer.step(1, &x) == Some(1));
    assert!(rt; layer.step(2, &x) == None);
    assert!(rt; !layer.is_ending(2));
}

#[test]
fn cues_of_any_channel(rt: HostRuntime) {
    let model = [cue(144, 60)];
    let layer = Skip::new(OneWord::new(&model));
    assert!(rt; takes(&layer, &[cue(176, 102), cue(151, 60)]));
    assert!(rt; !takes(&layer, &[cue(144, 61)]));
}
