//! The functions that an expression may call.

/// A scalar function.
#[derive(Clone, Copy, PartialEq, Eq)]
pub enum Function {
    Length,
    Lower,
    Upper,
    Trim,
    Substr,
    Instr,
    Replace,
    Abs,
    Typeof,
    Coalesce,
    Ifnull,
    Nullif,
}

/// An aggregate.
#[derive(Clone, Copy, PartialEq, Eq)]
pub enum Fold {
    Count,
    Sum,
    Min,
    Max,
}
