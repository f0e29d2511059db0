// A few uses, as a caller writes them.
use crate::{Book, Due, Firing, Queue, Reading, in_order};

#[test]
fn a_book_of_firings(rt: HostRuntime) {
    let blank = Firing {
        slot: 0,
        due: 0,
        lateness: 0,
    };
    let first = Firing {
        slot: 200,
        due: 18446744073709551615,
        lateness: 7,
    };
    let mut row = [blank; 2];
    let mut book = Book::new(&mut row);
    assert_eq!(rt; book.entry(0), None);
    assert!(rt; book.add(first).is_ok());
    assert_eq!(rt; book.entry(0), Some(first));
    assert_eq!(rt; book.entry(1), None);
    assert!(rt; book.add(blank).is_ok());
    assert!(rt; book.add(first).is_err());
    assert_eq!(rt; book.count(), 2);
    assert_eq!(rt; book.entry(1), Some(blank));
}

#[test]
fn a_book_of_readings(rt: HostRuntime) {
    let cold = Reading {
        channel: 3,
        moment: 40,
        value: -32768,
    };
    let mut row = [cold; 1];
    let mut book = Book::new(&mut row);
    assert!(rt; book.add(cold).is_ok());
    assert_eq!(rt; book.entry(0), Some(cold));
}

#[test]
fn a_queue_of_due_slots(rt: HostRuntime) {
    let late = Due {
        moment: 20,
        slot: 1,
    };
    let high = Due {
        moment: 10,
        slot: 2,
    };
    let low = Due {
        moment: 10,
        slot: 1,
    };
    let mut row = [late; 3];
    let mut queue = Queue::new();
    assert!(rt; queue.add(&mut row, high).is_ok());
    assert!(rt; queue.add(&mut row, late).is_ok());
    assert!(rt; queue.add(&mut row, low).is_ok());
    assert!(rt; queue.add(&mut row, low).is_err());
    assert_eq!(rt; queue.least(&row), Some(low));
    assert!(rt; queue.remove(&mut row, high));
    assert!(rt; !queue.remove(&mut row, high));
    assert_eq!(rt; queue.take_least(&mut row), Some(low));
    assert_eq!(rt; queue.take_least(&mut row), Some(late));
    assert_eq!(rt; queue.take_least(&mut row), None);
}

#[test]
fn numbers_in_order(rt: HostRuntime) {
    let mut numbers = [30u8, 10, 20, 10];
    let mut row = [0u8; 4];
    assert!(rt; in_order(&mut numbers, &mut row).is_ok());
    assert_eq!(rt; numbers, [10, 10, 20, 30]);
    assert!(rt; in_order(&mut numbers, &mut row[0..3]).is_err());
}
