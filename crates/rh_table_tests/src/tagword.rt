use rh_tagword::*;

// Words with their numbers, worked out by hand.
const WORDS: &[(Word, u64)] = &[
    (Word::Empty, 0),
    (Word::Key(0), 4),
    (Word::Key(17), 72),
    (Word::Key(4611686018427387902), 18446744073709551612),
    (
        Word::Mark {
            worker: 0,
            number: 0,
        },
        1,
    ),
    (
        Word::Mark {
            worker: 2,
            number: 5,
        },
        576460752303423509,
    ),
    (
        Word::Desc {
            worker: 0,
            number: 1,
        },
        6,
    ),
    (
        Word::Mark {
            worker: 63,
            number: 72057594037927935,
        },
        18446744073709551613,
    ),
    (
        Word::Desc {
            worker: 63,
            number: 72057594037927935,
        },
        18446744073709551614,
    ),
];

#[test]
fn words_have_their_numbers(rt: HostRuntime) {
    for &(word, number) in WORDS {
        assert_eq!(rt; pack(word), number, "of {word:?}");
        assert_eq!(rt; unpack(number), Some(word), "of {number}");
    }
    assert_eq!(rt; unpack(3), None);
    assert_eq!(rt; unpack(u64::MAX), None);
}

#[test]
fn plain_words_say_what_a_cell_holds(rt: HostRuntime) {
    for (value, number) in [
        (0, 0),
        (18, 72),
        (4611686018427387903, 18446744073709551612),
    ] {
        assert_eq!(rt; plain_word(value), number, "of {value}");
        assert_eq!(rt; plain_value(number), Some(value), "of {number}");
    }
    for number in [1, 6, 3] {
        assert_eq!(rt; plain_value(number), None, "of {number}");
    }
}

// Controls with their numbers and whether they are decided.
const CONTROLS: &[(u64, State, u64, bool)] = &[
    (0, State::Unused, 0, false),
    (0, State::Undecided, 1, false),
    (0, State::Succeeded, 2, true),
    (0, State::Withdrawn, 3, true),
    (1, State::Failed { decider: 0 }, 320, true),
    (5, State::Failed { decider: 3 }, 1347, true),
    (
        72057594037927935,
        State::Failed { decider: 63 },
        18446744073709551487,
        true,
    ),
];

#[test]
fn controls_have_their_numbers(rt: HostRuntime) {
    for &(serial, state, number, decided) in CONTROLS {
        assert_eq!(rt;
            pack_control(serial, state),
            number,
            "of {serial} {state:?}"
        );
        assert_eq!(rt;
            unpack_control(number),
            Some((serial, state)),
            "of {number}"
        );
        assert_eq!(rt; state.is_decided(), decided, "of {state:?}");
    }
    assert_eq!(rt; unpack_control(4), None);
    assert_eq!(rt; unpack_control(u64::MAX), None);
}

// Whether the lowest byte of a control may be this.
fn is_state(byte: u64) -> bool {
    byte < 4 || (64 <= byte && byte < 128)
}

// Serial numbers, and 256 times each.
#[test]
fn the_lowest_byte_tells_whether_it_is_a_control(rt: HostRuntime) {
    for (serial, first) in [(0, 0), (5, 1280), (72057594037927935, 18446744073709551360)] {
        assert!(rt;
            (0..256u64).all(|byte| {
                unpack_control(first | byte).map(|control| control.0)
                    == is_state(byte).then_some(serial)
            }),
            "of {serial}"
        );
    }
}
