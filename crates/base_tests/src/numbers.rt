use crate::fixtures::{cut, lexeme};
use pv_number::{Whole, compare, compare_int, integer, is_integer, whole};
use std::alloc::Global;
use std::cmp::Ordering;
use std::process::Abort;

/// Spellings, and the whole numbers that they stand for.
const WHOLES: &str = "\
0 0
-0 0
-0.0 0
0.000e5 0
0e999999999999999999999 0
0.0e-999999999999999999999 0
7 7
-7 -7
10 10
3.0 3
3.10 fraction
0.1 fraction
-0.5 fraction
1.5 fraction
1.50e1 15
1.50e0 fraction
30e-1 3
30e-2 fraction
100000e-5 1
100000e-6 fraction
12.5e1 125
12.50E+01 125
1e0005 100000
1e-0005 fraction
100e-0002 1
1e38 100000000000000000000000000000000000000
1e39 too big
-1e38 -100000000000000000000000000000000000000
170141183460469231731687303715884105727 170141183460469231731687303715884105727
170141183460469231731687303715884105728 too big
-170141183460469231731687303715884105728 -170141183460469231731687303715884105728
-170141183460469231731687303715884105729 too big
-170141183460469231731687303715884105728.000 -170141183460469231731687303715884105728
170141183460469231731687303715884105728e-1 fraction
1701411834604692317316873037158841057270e-1 170141183460469231731687303715884105727
340282366920938463463374607431768211456 too big
340282366920938463463374607431768211456e-1 fraction
1e400000000 too big
-1e400000000 too big
1e-400000000 fraction
0.00000000000000000000000000000000000000000000000001e50 1
1.7014118346046923173168730371588410572700e38 170141183460469231731687303715884105727
1e18446744073709551616 too big
10e-18446744073709551616 fraction
1e1267650600228229401496703205376 too big
1e-1267650600228229401496703205376 fraction";

/// Two spellings, and between them the order of their numbers.
const ORDERED: &str = "\
0 = -0
0e5 = -0.0e-99999999999999999999999999999999
1 = 1.0
1 = 1e0
10e9999999999999999999999999999999999999999 = 1e10000000000000000000000000000000000000000
10e9999999999999999999999999999999999999999 > -1e10000000000000000000000000000000000000000
1e9999999999999999999999999999999999999999 < 1e10000000000000000000000000000000000000000
-1e9999999999999999999999999999999999999999 > -1e10000000000000000000000000000000000000000
1e-9999999999999999999999999999999999999999 > 1e-10000000000000000000000000000000000000000
0.1e-9999999999999999999999999999999999999999 = 1e-10000000000000000000000000000000000000000
1e1000 > 1e-1000
9 < 10
99 < 100
-9 > -10
0.5 = 0.50000
1.25 = 125e-2
1.25 < 1.251
1.25 > 1.2499999999999999999999999999999999999999999999
12345678901234567890123456789012345678901 < 12345678901234567890123456789012345678902
-0.001 < -0.0001
1e0005 = 100000
1e00000000000000000000000000000000000000000000000007 = 10000000
0.00001 = 1e-5
123e5 = 0.123e8
0.1 > 0
-0.1 < 0
1e99999999999999999999999999999999999999 > 0
1267650600228229401496703205376 > 1267650600228229401496703205375";

/// A spelling and an integer, and between them the order of their numbers.
const AMONG_INTEGERS: &str = "\
0 = 0
-0.0 = 0
-0.0e9 < 1
3.0 = 3
30e-1 = 3
2.5 > 2
2.5 < 3
-2.5 < -2
-2.5 > -3
1e38 = 100000000000000000000000000000000000000
1e39 > 170141183460469231731687303715884105727
-1e39 < -170141183460469231731687303715884105728
-170141183460469231731687303715884105728.0 = -170141183460469231731687303715884105728
-170141183460469231731687303715884105728.1 < -170141183460469231731687303715884105728
170141183460469231731687303715884105728 > 170141183460469231731687303715884105727
1e-400000000 > 0
-1e-400000000 < 0
99 < 100
100 > 99";

fn told(rt: &impl Abort, alloc: Global, number: &Whole) -> String {
    match number {
        Whole::Fits(n) => format!(in alloc; "{n}").expect(rt, "memory"),
        Whole::TooBig => "too big".to_string(alloc).expect(rt, "memory"),
        Whole::Fraction => "fraction".to_string(alloc).expect(rt, "memory"),
    }
}

fn sign(order: Ordering) -> &'static str {
    match order {
        Ordering::Less => "<",
        Ordering::Equal => "=",
        Ordering::Greater => ">",
    }
}

#[test]
fn spellings_have_their_whole_numbers(rt: HostRuntime) {
    let alloc = rt.alloc();
    for row in WHOLES.lines() {
        let (spelling, want) = cut(&rt, row);
        let number = whole(&lexeme(&rt, alloc, spelling.as_bytes()));
        assert_eq!(rt; told(&rt, alloc, &number).as_str(), want, "{row}");
    }
}

#[test]
fn numbers_are_ordered(rt: HostRuntime) {
    let alloc = rt.alloc();
    for row in ORDERED.lines() {
        let (left, rest) = cut(&rt, row);
        let (want, right) = cut(&rt, rest);
        let left = lexeme(&rt, alloc, left.as_bytes());
        let right = lexeme(&rt, alloc, right.as_bytes());
        assert_eq!(rt; sign(compare(&left, &right)), want, "{row}");
        assert_eq!(rt; sign(compare(&right, &left).reverse()), want, "{row}");
    }
}

#[test]
fn numbers_are_ordered_among_integers(rt: HostRuntime) {
    let alloc = rt.alloc();
    for row in AMONG_INTEGERS.lines() {
        let (spelling, rest) = cut(&rt, row);
        let (want, digits) = cut(&rt, rest);
        let n = integer(&lexeme(&rt, alloc, digits.as_bytes())).expect(&rt, "an integer");
        let found = compare_int(&lexeme(&rt, alloc, spelling.as_bytes()), n);
        assert_eq!(rt; sign(found), want, "{row}");
    }
    assert_eq!(rt; integer(&lexeme(&rt, alloc, b"-0")), Some(0));
    assert_eq!(rt; integer(&lexeme(&rt, alloc, b"1.0")), None);
}

/// A one, and a zero for each place behind it.
fn power_of_ten(rt: &impl Abort, alloc: Global, zeros: usize) -> Vec<u8> {
    let mut spelling = Vec::new(alloc);
    spelling.push(b'1').expect(rt, "memory");
    for _ in 0..zeros {
        spelling.push(b'0').expect(rt, "memory");
    }
    spelling
}

#[test]
fn long_lexemes_are_read(rt: HostRuntime) {
    let alloc = rt.alloc();
    let mut spelling = power_of_ten(&rt, alloc, 999_999);
    let large = lexeme(&rt, alloc, &spelling);
    assert!(rt; whole(&large) == Whole::TooBig && is_integer(&large));
    spelling
        .extend_from_slice(b"e-999999")
        .expect(&rt, "memory");
    let one = lexeme(&rt, alloc, &spelling);
    assert!(rt; whole(&one) == Whole::Fits(1) && !is_integer(&one));
    assert!(rt; compare_int(&one, 1) == Ordering::Equal);
    assert!(rt; compare(&one, &large) == Ordering::Less);
    spelling.push(b'9').expect(&rt, "memory");
    assert!(rt; whole(&lexeme(&rt, alloc, &spelling)) == Whole::Fraction);
}
