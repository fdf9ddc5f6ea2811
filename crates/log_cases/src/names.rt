//! Words that are given, given again and forgotten.

use log_answers::names::Names;
use ptl_types::Handle;

#[test]
fn words_are_given_again(rt: HostRuntime) {
    let mut names = Names::new(rt.alloc());
    let first = Handle { slot: 0, stamp: 0 };
    let second = Handle { slot: 1, stamp: 1 };
    let third = Handle { slot: 0, stamp: 2 };
    assert!(rt; names.bind(rt.alloc(), first, Some(b"m0")).is_ok());
    assert_eq!(rt; names.thing(b"m0"), Some(first));
    assert!(rt; names.bind(rt.alloc(), second, Some(b"m0")).is_ok());
    assert_eq!(rt; names.thing(b"m0"), Some(second));
    assert_eq!(rt; names.word(first), Some(b"m0".as_slice()));
    assert!(rt; names.bind(rt.alloc(), third, None).is_ok());
    assert_eq!(rt; names.word(first), None);
    assert_eq!(rt; names.thing(b"m0"), Some(second));
    names.clear(1);
    assert_eq!(rt; names.thing(b"m0"), None);
}
