// The keys of a few answers.
use keys::{Key, Length, LengthKey, Letters, Translator};

#[test]
fn letters_of_short_and_long_answers(rt: HostRuntime) {
    assert_eq!(rt; Letters.transform(b"").number, 0);
    assert_eq!(rt; Letters.transform(b"A").number, 4_683_743_612_465_315_840);
    assert_eq!(rt;
        Letters.transform(b"CROSSWORDS").number,
        Letters.transform(b"CROSSWOR").number
    );
    assert!(rt;
        Letters
            .transform(b"ARIA")
            .is_less(&Letters.transform(b"OBOE"))
    );
}

#[test]
fn length_of_short_and_long_answers(rt: HostRuntime) {
    let aria = LengthKey {
        length: 4,
        prefix: 0x4152_4941,
    };
    assert_eq!(rt; Length.transform(b"ARIA"), aria);
    assert_eq!(rt; Length.transform(b"\xC3\x89T\xC3\x89").length, 5);
    assert_eq!(rt; Length.transform(&[65; 300]).length, 255);
    assert!(rt;
        Length
            .transform(b"OBOE")
            .is_less(&Length.transform(b"ARIAS"))
    );
}
