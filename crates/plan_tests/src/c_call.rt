// The call for C: its answers, and the bytes of the buffer.
use crate::example::EXAMPLE;
use c_api::call::riuvelde_plan;

/// Slips with looks, the answer, and what a buffer of four nines then has.
static CALLS: [(&str, u32, u32, [u8; 4]); 11] = [
    (EXAMPLE, 100_000, 1, [0, 0, 5, 0]),
    ("J 0 5 300 305\nE 1 0 14\n", 9, 1, [44, 1, 9, 9]),
    ("J 0 1 39999 40000\nE 1 0 18\n", 9, 1, [63, 156, 9, 9]),
    ("E 0 0 0\n", 1, 1, [9, 9, 9, 9]),
    ("J 0 5 0 10\nE 1 0 11\n", 1, 0, [9, 9, 9, 9]),
    ("J 0 5 0 9\nJ 0 5 0 9\nE 2 0 20\n", 9, 2, [9, 9, 9, 9]),
    (EXAMPLE, 0, 11, [9, 9, 9, 9]),
    (EXAMPLE, 1_000_001, 11, [9, 9, 9, 9]),
    ("", 0, 121, [9, 9, 9, 9]),
    ("J 0 5 0 12\nJ 8 4 0 9\n", 0, 3_000_225, [9, 9, 9, 9]),
    ("J 0 5 0 12\nE 0 0 11\n", 9, 224, [9, 9, 9, 9]),
];

#[test]
fn answers_and_bytes(rt: HostRuntime) {
    for (slip, looks, answer, bytes) in &CALLS {
        let mut buffer = [9u8; 4];
        assert_eq!(rt;
            riuvelde_plan(slip.as_bytes(), *looks, &mut buffer),
            *answer,
            "{}",
            *slip
        );
        assert_eq!(rt; buffer, *bytes, "{}", *slip);
    }
}

#[test]
fn a_buffer_may_be_too_short(rt: HostRuntime) {
    let mut three = [9u8; 3];
    assert_eq!(rt; riuvelde_plan(EXAMPLE.as_bytes(), 9, &mut three), 14);
    assert_eq!(rt; three, [9, 9, 9]);
    assert_eq!(rt; riuvelde_plan(EXAMPLE.as_bytes(), 0, &mut three), 11);
    let mut seven = [9u8; 7];
    assert_eq!(rt; riuvelde_plan(EXAMPLE.as_bytes(), 9, &mut seven), 1);
    assert_eq!(rt; seven, [0, 0, 5, 0, 9, 9, 9]);
}
