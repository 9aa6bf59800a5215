//! Each number that std reads. A macro cannot write these impls.
ghost use Rattle.rkt_param.specs.Reads.{StdReads};

use super::{FromParam, read};
use rkt_base::Want;
use std::alloc::Global;
use std::num::{
    NonZeroI8, NonZeroI16, NonZeroI32, NonZeroI64, NonZeroI128, NonZeroIsize, NonZeroU8,
    NonZeroU16, NonZeroU32, NonZeroU64, NonZeroU128, NonZeroUsize,
};
use std::str::FromStr;

impl FromParam for u8 {
    type Error = String;

    ghost reads = { StdReads ⟦<u8 as FromStr>⟧.from_str_gives };

    fn from_param(alloc: Global, param: &str) -> Result<u8, Want<String>> {
        read(alloc, param)
    }
}

impl FromParam for u16 {
    type Error = String;

    ghost reads = { StdReads ⟦<u16 as FromStr>⟧.from_str_gives };

    fn from_param(alloc: Global, param: &str) -> Result<u16, Want<String>> {
        read(alloc, param)
    }
}

impl FromParam for u32 {
    type Error = String;

    ghost reads = { StdReads ⟦<u32 as FromStr>⟧.from_str_gives };

    fn from_param(alloc: Global, param: &str) -> Result<u32, Want<String>> {
        read(alloc, param)
    }
}

impl FromParam for u64 {
    type Error = String;

    ghost reads = { StdReads ⟦<u64 as FromStr>⟧.from_str_gives };

    fn from_param(alloc: Global, param: &str) -> Result<u64, Want<String>> {
        read(alloc, param)
    }
}

impl FromParam for u128 {
    type Error = String;

    ghost reads = { StdReads ⟦<u128 as FromStr>⟧.from_str_gives };

    fn from_param(alloc: Global, param: &str) -> Result<u128, Want<String>> {
        read(alloc, param)
    }
}

impl FromParam for usize {
    type Error = String;

    ghost reads = { StdReads ⟦<usize as FromStr>⟧.from_str_gives };

    fn from_param(alloc: Global, param: &str) -> Result<usize, Want<String>> {
        read(alloc, param)
    }
}

impl FromParam for i8 {
    type Error = String;

    ghost reads = { StdReads ⟦<i8 as FromStr>⟧.from_str_gives };

    fn from_param(alloc: Global, param: &str) -> Result<i8, Want<String>> {
        read(alloc, param)
    }
}

impl FromParam for i16 {
    type Error = String;

    ghost reads = { StdReads ⟦<i16 as FromStr>⟧.from_str_gives };

    fn from_param(alloc: Global, param: &str) -> Result<i16, Want<String>> {
        read(alloc, param)
    }
}

impl FromParam for i32 {
    type Error = String;

    ghost reads = { StdReads ⟦<i32 as FromStr>⟧.from_str_gives };

    fn from_param(alloc: Global, param: &str) -> Result<i32, Want<String>> {
        read(alloc, param)
    }
}

impl FromParam for i64 {
    type Error = String;

    ghost reads = { StdReads ⟦<i64 as FromStr>⟧.from_str_gives };

    fn from_param(alloc: Global, param: &str) -> Result<i64, Want<String>> {
        read(alloc, param)
    }
}

impl FromParam for i128 {
    type Error = String;

    ghost reads = { StdReads ⟦<i128 as FromStr>⟧.from_str_gives };

    fn from_param(alloc: Global, param: &str) -> Result<i128, Want<String>> {
        read(alloc, param)
    }
}

impl FromParam for isize {
    type Error = String;

    ghost reads = { StdReads ⟦<isize as FromStr>⟧.from_str_gives };

    fn from_param(alloc: Global, param: &str) -> Result<isize, Want<String>> {
        read(alloc, param)
    }
}

impl FromParam for NonZeroU8 {
    type Error = String;

    ghost reads = { StdReads ⟦<NonZeroU8 as FromStr>⟧.from_str_gives };

    fn from_param(alloc: Global, param: &str) -> Result<NonZeroU8, Want<String>> {
        read(alloc, param)
    }
}

impl FromParam for NonZeroU16 {
    type Error = String;

    ghost reads = { StdReads ⟦<NonZeroU16 as FromStr>⟧.from_str_gives };

    fn from_param(alloc: Global, param: &str) -> Result<NonZeroU16, Want<String>> {
        read(alloc, param)
    }
}

impl FromParam for NonZeroU32 {
    type Error = String;

    ghost reads = { StdReads ⟦<NonZeroU32 as FromStr>⟧.from_str_gives };

    fn from_param(alloc: Global, param: &str) -> Result<NonZeroU32, Want<String>> {
        read(alloc, param)
    }
}

impl FromParam for NonZeroU64 {
    type Error = String;

    ghost reads = { StdReads ⟦<NonZeroU64 as FromStr>⟧.from_str_gives };

    fn from_param(alloc: Global, param: &str) -> Result<NonZeroU64, Want<String>> {
        read(alloc, param)
    }
}

impl FromParam for NonZeroU128 {
    type Error = String;

    ghost reads = { StdReads ⟦<NonZeroU128 as FromStr>⟧.from_str_gives };

    fn from_param(alloc: Global, param: &str) -> Result<NonZeroU128, Want<String>> {
        read(alloc, param)
    }
}

impl FromParam for NonZeroUsize {
    type Error = String;

    ghost reads = { StdReads ⟦<NonZeroUsize as FromStr>⟧.from_str_gives };

    fn from_param(alloc: Global, param: &str) -> Result<NonZeroUsize, Want<String>> {
        read(alloc, param)
    }
}

impl FromParam for NonZeroI8 {
    type Error = String;

    ghost reads = { StdReads ⟦<NonZeroI8 as FromStr>⟧.from_str_gives };

    fn from_param(alloc: Global, param: &str) -> Result<NonZeroI8, Want<String>> {
        read(alloc, param)
    }
}

impl FromParam for NonZeroI16 {
    type Error = String;

    ghost reads = { StdReads ⟦<NonZeroI16 as FromStr>⟧.from_str_gives };

    fn from_param(alloc: Global, param: &str) -> Result<NonZeroI16, Want<String>> {
        read(alloc, param)
    }
}

impl FromParam for NonZeroI32 {
    type Error = String;

    ghost reads = { StdReads ⟦<NonZeroI32 as FromStr>⟧.from_str_gives };

    fn from_param(alloc: Global, param: &str) -> Result<NonZeroI32, Want<String>> {
        read(alloc, param)
    }
}

impl FromParam for NonZeroI64 {
    type Error = String;

    ghost reads = { StdReads ⟦<NonZeroI64 as FromStr>⟧.from_str_gives };

    fn from_param(alloc: Global, param: &str) -> Result<NonZeroI64, Want<String>> {
        read(alloc, param)
    }
}

impl FromParam for NonZeroI128 {
    type Error = String;

    ghost reads = { StdReads ⟦<NonZeroI128 as FromStr>⟧.from_str_gives };

    fn from_param(alloc: Global, param: &str) -> Result<NonZeroI128, Want<String>> {
        read(alloc, param)
    }
}

impl FromParam for NonZeroIsize {
    type Error = String;

    ghost reads = { StdReads ⟦<NonZeroIsize as FromStr>⟧.from_str_gives };

    fn from_param(alloc: Global, param: &str) -> Result<NonZeroIsize, Want<String>> {
        read(alloc, param)
    }
}
