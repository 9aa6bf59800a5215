//! Numbers, by the names of their types.
use crate::addresses::address_answer;
use crate::read::read;
use cases::CaseError;
use std::alloc::Global;
use std::num::{
    NonZeroI8, NonZeroI16, NonZeroI32, NonZeroI64, NonZeroI128, NonZeroIsize, NonZeroU8,
    NonZeroU16, NonZeroU32, NonZeroU64, NonZeroU128, NonZeroUsize,
};

/// Adds what a text gives as a value of a type, whose name begins with its family.
pub fn number_answer(
    alloc: Global,
    name: &str,
    text: &str,
    out: &mut String,
) -> Result<(), CaseError> {
    match name.split_at_checked(1) {
        Some(("u", bits)) => unsigned(alloc, bits, text, out),
        Some(("i", bits)) => signed(alloc, bits, text, out),
        _ => nonzero_answer(alloc, name, text, out),
    }
}

fn unsigned(alloc: Global, bits: &str, text: &str, out: &mut String) -> Result<(), CaseError> {
    match bits {
        "8" => read::<u8>(alloc, text, out),
        "16" => read::<u16>(alloc, text, out),
        "32" => read::<u32>(alloc, text, out),
        _ => wide_unsigned(alloc, bits, text, out),
    }
}

fn wide_unsigned(alloc: Global, bits: &str, text: &str, out: &mut String) -> Result<(), CaseError> {
    match bits {
        "64" => read::<u64>(alloc, text, out),
        "128" => read::<u128>(alloc, text, out),
        "size" => read::<usize>(alloc, text, out),
        _ => Err(CaseError::Line),
    }
}

fn signed(alloc: Global, bits: &str, text: &str, out: &mut String) -> Result<(), CaseError> {
    match bits {
        "8" => read::<i8>(alloc, text, out),
        "16" => read::<i16>(alloc, text, out),
        "32" => read::<i32>(alloc, text, out),
        _ => wide_signed(alloc, bits, text, out),
    }
}

fn wide_signed(alloc: Global, bits: &str, text: &str, out: &mut String) -> Result<(), CaseError> {
    match bits {
        "64" => read::<i64>(alloc, text, out),
        "128" => read::<i128>(alloc, text, out),
        "size" => read::<isize>(alloc, text, out),
        _ => Err(CaseError::Line),
    }
}

/// The same of a type of numbers that are not zero.
fn nonzero_answer(
    alloc: Global,
    name: &str,
    text: &str,
    out: &mut String,
) -> Result<(), CaseError> {
    match name.split_at_checked(8) {
        Some(("NonZeroU", bits)) => nonzero_unsigned(alloc, bits, text, out),
        Some(("NonZeroI", bits)) => nonzero_signed(alloc, bits, text, out),
        _ => address_answer(alloc, name, text, out),
    }
}

fn nonzero_unsigned(
    alloc: Global,
    bits: &str,
    text: &str,
    out: &mut String,
) -> Result<(), CaseError> {
    match bits {
        "8" => read::<NonZeroU8>(alloc, text, out),
        "16" => read::<NonZeroU16>(alloc, text, out),
        "32" => read::<NonZeroU32>(alloc, text, out),
        _ => wide_nonzero_unsigned(alloc, bits, text, out),
    }
}

fn wide_nonzero_unsigned(
    alloc: Global,
    bits: &str,
    text: &str,
    out: &mut String,
) -> Result<(), CaseError> {
    match bits {
        "64" => read::<NonZeroU64>(alloc, text, out),
        "128" => read::<NonZeroU128>(alloc, text, out),
        "size" => read::<NonZeroUsize>(alloc, text, out),
        _ => Err(CaseError::Line),
    }
}

fn nonzero_signed(
    alloc: Global,
    bits: &str,
    text: &str,
    out: &mut String,
) -> Result<(), CaseError> {
    match bits {
        "8" => read::<NonZeroI8>(alloc, text, out),
        "16" => read::<NonZeroI16>(alloc, text, out),
        "32" => read::<NonZeroI32>(alloc, text, out),
        _ => wide_nonzero_signed(alloc, bits, text, out),
    }
}

fn wide_nonzero_signed(
    alloc: Global,
    bits: &str,
    text: &str,
    out: &mut String,
) -> Result<(), CaseError> {
    match bits {
        "64" => read::<NonZeroI64>(alloc, text, out),
        "128" => read::<NonZeroI128>(alloc, text, out),
        "size" => read::<NonZeroIsize>(alloc, text, out),
        _ => Err(CaseError::Line),
    }
}
