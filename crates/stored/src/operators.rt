// The operators: one constant table, and nothing else in the code knows what an operator is.
ghost use Rattle.std.specs.Prelude.{◌≡◌};
ghost use Rattle.stored.specs.Operators.{row_of, operator_of};

use crate::items::{Operator, Sort};

/// What there is to know of an operator.
#[derive(Clone, Copy, Debug, PartialEq, Eq)]
pub struct OperatorRow {
    /// The code in a record.
    pub code: u8,
    /// The operator that it is.
    pub operator: Operator,
    /// The sort of key, and so of list, that it goes with.
    pub sort: Sort,
    /// A negated operator holds if none of its values matches.
    pub negated: bool,
    /// In its values `*` and `?` are plain bytes.
    pub literal: bool,
    /// What it says of an absent key.
    pub absent: bool,
}

const OPERATORS: [OperatorRow; 12] = [
    OperatorRow {
        code: 0x01,
        operator: Operator::StringEquals,
        sort: Sort::Text,
        negated: false,
        literal: true,
        absent: false,
    },
    OperatorRow {
        code: 0x02,
        operator: Operator::StringNotEquals,
        sort: Sort::Text,
        negated: true,
        literal: true,
        absent: false,
    },
    OperatorRow {
        code: 0x03,
        operator: Operator::StringLike,
        sort: Sort::Text,
        negated: false,
        literal: false,
        absent: false,
    },
    OperatorRow {
        code: 0x04,
        operator: Operator::StringNotLike,
        sort: Sort::Text,
        negated: true,
        literal: false,
        absent: false,
    },
    OperatorRow {
        code: 0x05,
        operator: Operator::IpAddress,
        sort: Sort::Address,
        negated: false,
        literal: false,
        absent: false,
    },
    OperatorRow {
        code: 0x06,
        operator: Operator::NotIpAddress,
        sort: Sort::Address,
        negated: true,
        literal: false,
        absent: false,
    },
    OperatorRow {
        code: 0x11,
        operator: Operator::StringEqualsIfExists,
        sort: Sort::Text,
        negated: false,
        literal: true,
        absent: true,
    },
    OperatorRow {
        code: 0x12,
        operator: Operator::StringNotEqualsIfExists,
        sort: Sort::Text,
        negated: true,
        literal: true,
        absent: true,
    },
    OperatorRow {
        code: 0x13,
        operator: Operator::StringLikeIfExists,
        sort: Sort::Text,
        negated: false,
        literal: false,
        absent: true,
    },
    OperatorRow {
        code: 0x14,
        operator: Operator::StringNotLikeIfExists,
        sort: Sort::Text,
        negated: true,
        literal: false,
        absent: true,
    },
    OperatorRow {
        code: 0x15,
        operator: Operator::IpAddressIfExists,
        sort: Sort::Address,
        negated: false,
        literal: false,
        absent: true,
    },
    OperatorRow {
        code: 0x16,
        operator: Operator::NotIpAddressIfExists,
        sort: Sort::Address,
        negated: true,
        literal: false,
        absent: true,
    },
];

/// The row of an operator. The rows stand in the order of the operators.
pub fn operator_row(operator: Operator) -> OperatorRow
    ensures { result ≡ row_of operator }
{
    OPERATORS[operator as usize]
}

// The operator with a code: that of the first row that has it.
pub(crate) fn operator_of(code: u8) -> Option<Operator>
    ensures { result ≡ operator_of code }
{
    // stays: tried with `find` and `map`, and the proof does not close: what `find` gives over a constant table
    for row in &OPERATORS {
        if row.code == code {
            return Some(row.operator);
        }
    }
    None
}
