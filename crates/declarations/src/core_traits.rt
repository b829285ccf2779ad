//! The numbers of the traits of `core` that rules name.

pub const SIZED: u32 = 0;

pub const CLONE: u32 = 1;

pub const COPY: u32 = 2;

pub const TUPLE: u32 = 3;

pub const FN_PTR: u32 = 4;

pub const FN_ONCE: u32 = 5;

pub const FN_MUT: u32 = 6;

pub const FN: u32 = 7;

pub const UNSIZE: u32 = 8;
