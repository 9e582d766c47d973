//! Each call against tables that a script computes from the standard's text.

mod table_32;
mod table_64;
mod table_bytes;

use super::same_in;
use wm_num::{
    Comparison, Conversion, Width, binary, compare, convert, extend_bytes, low_bytes, unary,
};

#[test]
fn binary_at_32(rt: HostRuntime) {
    for case in &table_32::BINARY {
        let (op, left, right, expected) = *case;
        let result = binary(op, Width::W32, u64::from(left), u64::from(right));
        same_in(&rt, case, result, expected.map(u64::from));
    }
}

#[test]
fn binary_at_64(rt: HostRuntime) {
    for case in &table_64::BINARY {
        let (op, left, right, expected) = *case;
        same_in(&rt, case, binary(op, Width::W64, left, right), expected);
    }
}

#[test]
fn unary_at_32(rt: HostRuntime) {
    for case in &table_32::UNARY {
        let (op, operand, expected) = *case;
        let result = unary(op, Width::W32, u64::from(operand));
        same_in(&rt, case, result, u64::from(expected));
    }
}

#[test]
fn unary_at_64(rt: HostRuntime) {
    for case in &table_64::UNARY {
        let (op, operand, expected) = *case;
        same_in(&rt, case, unary(op, Width::W64, operand), expected);
    }
}

#[test]
fn compare_at_32(rt: HostRuntime) {
    for case in &table_32::COMPARE {
        let (op, left, right, expected) = *case;
        let result = compare(op, Width::W32, u64::from(left), u64::from(right));
        same_in(&rt, case, result, expected);
    }
}

#[test]
fn compare_at_64(rt: HostRuntime) {
    for case in &table_64::COMPARE {
        let (op, left, right, expected) = *case;
        same_in(&rt, case, compare(op, Width::W64, left, right), expected);
    }
}

#[test]
fn equal_to_zero(rt: HostRuntime) {
    assert!(rt; compare(Comparison::Eq, Width::W32, 0, 0));
    assert!(rt; !compare(Comparison::Eq, Width::W64, 1, 0));
}

#[test]
fn wraps_and_extends(rt: HostRuntime) {
    for case in &table_bytes::WRAP {
        let (operand, wrapped) = *case;
        same_in(&rt, case, convert(Conversion::WrapI64, operand), wrapped);
    }
    for case in &table_bytes::EXTEND {
        let (operand, signed, unsigned) = *case;
        let operand = u64::from(operand);
        same_in(&rt, case, convert(Conversion::ExtendI32S, operand), signed);
        same_in(
            &rt,
            case,
            convert(Conversion::ExtendI32U, operand),
            unsigned,
        );
    }
}

#[test]
fn takes_low_bytes(rt: HostRuntime) {
    for case in &table_bytes::LOW_BYTES {
        let (value, bytes, expected) = *case;
        same_in(&rt, case, low_bytes(value, bytes), expected);
    }
}

#[test]
fn extends_bytes(rt: HostRuntime) {
    for case in &table_bytes::EXTEND_BYTES {
        let (value, bytes, width, signedness, expected) = *case;
        same_in(
            &rt,
            case,
            extend_bytes(value, bytes, width, signedness),
            expected,
        );
    }
}
