//! Words of states and of statuses, and what each change makes of a value.
use octet_rule::Change;
use octet_state::{StateWord, StatusWord};

// States and their words.
const STATES: [(StateWord, u64); 6] = [
    (StateWord::WrEx { owner: 0 }, 0x0000_0000_0000_0000),
    (StateWord::RdEx { owner: 1, upto: 1 }, 0x2100_0000_0000_0001),
    (StateWord::RdSh { number: 1 }, 0x4000_0000_0000_0001),
    (StateWord::WrInt { by: 15 }, 0x6f00_0000_0000_0000),
    (StateWord::RdInt { by: 1 }, 0x8100_0000_0000_0000),
    (StateWord::ShInt { by: 2 }, 0xa200_0000_0000_0000),
];

// Words of no state: no such tag, a thread beside a draw's number.
const NO_STATES: [u64; 2] = [0xc000_0000_0000_0000, 0x4100_0000_0000_0001];

#[test]
fn states_have_their_words(rt: HostRuntime) {
    for (state, word) in STATES {
        assert_eq!(rt; StateWord::unpack(word), Some(state));
    }
    for word in NO_STATES {
        assert_eq!(rt; StateWord::unpack(word), None);
    }
}

#[test]
fn statuses_have_their_words(rt: HostRuntime) {
    let blocked = StatusWord {
        blocked: true,
        upto: 1,
        asked: 0,
    };
    assert_eq!(rt; StatusWord::unpack(0x8000_0000_0001_0000), blocked);
    let asked = StatusWord {
        blocked: false,
        upto: 2,
        asked: 1,
    };
    assert_eq!(rt; StatusWord::unpack(0x0000_0000_0002_0001), asked);
}

const MOST: u64 = u64::MAX;

const fn exchange(expected: u64, new: u64) -> Change {
    Change::CompareExchange { expected, new }
}

// What `fetch_add` and the others of Rust's `AtomicU64` leave where they find a value, by their documentation.
#[test]
fn each_change_is_that_of_an_atomic(rt: HostRuntime) {
    let rows = [
        (MOST, Change::Add(3), 2),
        (2, Change::Sub(3), MOST),
        (5, Change::Swap(9), 9),
        (5, exchange(5, 9), 9),
        (5, exchange(4, 9), 5),
        (0b1100, Change::And(0b1010), 0b1000),
        (0b1100, Change::Or(0b1010), 0b1110),
        (0b1100, Change::Xor(0b1010), 0b0110),
        (5, Change::Max(9), 9),
        (5, Change::Max(4), 5),
        (1 << 63, Change::Max(1), 1 << 63),
        (5, Change::Min(9), 5),
        (5, Change::Min(4), 4),
        (1 << 63, Change::Min(1), 1),
    ];
    for (value, change, wanted) in rows {
        assert_eq!(rt; change.changed(value), wanted, "{change:?} of {value}");
    }
}
