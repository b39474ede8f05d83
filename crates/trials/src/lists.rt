//! Waiting lists of trailers.

use tables::Refusal;
use waiting::{Trailer, Waiting};

#[test]
fn minute_then_line_then_load(rt: HostRuntime) {
    let first = Trailer {
        minute: 5,
        line: 2,
        load: 40,
    };
    let second = Trailer {
        minute: 5,
        line: 3,
        load: 20,
    };
    let third = Trailer {
        minute: 5,
        line: 3,
        load: 30,
    };
    let mut slots = [third; 3];
    let mut waiting = Waiting::over(&mut slots);
    assert!(rt; waiting.is_empty());
    assert!(rt; waiting.put(third).is_ok());
    assert!(rt; waiting.put(first).is_ok());
    assert!(rt; waiting.put(second).is_ok());
    assert_eq!(rt; waiting.put(first), Err(Refusal::ListFull(3)));
    assert_eq!(rt; waiting.len(), 3);
    assert_eq!(rt; waiting.take(), Some(first));
    assert_eq!(rt; waiting.take(), Some(second));
    assert_eq!(rt; waiting.take(), Some(third));
    assert_eq!(rt; waiting.take(), None);
}
