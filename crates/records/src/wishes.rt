// What is wished for: a record, or what stands where none can be made.
ghost use Rattle.std.specs.Prelude.{◌≡◌, suc};
ghost use Rattle.stored.specs.Operators.{row_of};
ghost use Rattle.members.specs.Names.{kind_in, index_of_row, index_of_operator, index_of_key};
ghost use Rattle.records.specs.Documents.{operator_at, key_at, column_at};
ghost use Rattle.records.specs.Machinery.Cursors.{string_kind};

use members::names::{KeyName, OperatorName, RowName};
use stored::items::{Column, Effect, Key, Operator, Sort};
use stored::operators::operator_row;

/// What is wished for: a record, or what stands where none can be made.
#[derive(Clone, Copy, Debug, PartialEq, Eq)]
pub enum Wish {
    /// The number of statements.
    Start(usize),
    /// A statement, by its effect.
    Statement(Effect),
    /// Another Effect.
    Strange,
    /// An element of a statement.
    Column(Column),
    /// A condition.
    Condition(Operator, Key),
    /// An empty list.
    Empty,
    /// A string: its bytes are a value.
    Value,
    /// A string under an address operator.
    Network,
    /// The end of the table.
    End,
}

// The column of an element.
pub(crate) fn column_at(name: RowName) -> Column
    ensures { result ≡ column_at (suc (index_of_row name)) }
{
    match name {
        RowName::Principal => Column::Principal,
        RowName::NotPrincipal => Column::NotPrincipal,
        RowName::Action => Column::Action,
        RowName::NotAction => Column::NotAction,
        RowName::Resource => Column::Resource,
        RowName::NotResource | RowName::Sid | RowName::Effect | RowName::Condition => {
            Column::NotResource
        }
    }
}

// An operator by its name; what is no name is read as the last.
pub(crate) fn operator_at(name: Option<OperatorName>) -> Operator
    ensures { result ≡ operator_at (kind_in index_of_operator name) }
{
    match name {
        Some(OperatorName::StringEquals) => Operator::StringEquals,
        Some(OperatorName::StringNotEquals) => Operator::StringNotEquals,
        Some(OperatorName::StringLike) => Operator::StringLike,
        Some(OperatorName::StringNotLike) => Operator::StringNotLike,
        Some(OperatorName::IpAddress) => Operator::IpAddress,
        Some(OperatorName::NotIpAddress) => Operator::NotIpAddress,
        Some(OperatorName::StringEqualsIfExists) => Operator::StringEqualsIfExists,
        Some(OperatorName::StringNotEqualsIfExists) => Operator::StringNotEqualsIfExists,
        Some(OperatorName::StringLikeIfExists) => Operator::StringLikeIfExists,
        Some(OperatorName::StringNotLikeIfExists) => Operator::StringNotLikeIfExists,
        Some(OperatorName::IpAddressIfExists) => Operator::IpAddressIfExists,
        Some(OperatorName::NotIpAddressIfExists) | None => Operator::NotIpAddressIfExists,
    }
}

// A key by its name; what is no name is read as the last.
pub(crate) fn key_at(name: Option<KeyName>) -> Key
    ensures { result ≡ key_at (kind_in index_of_key name) }
{
    match name {
        Some(KeyName::SourceVpc) => Key::SourceVpc,
        Some(KeyName::Prefix) => Key::Prefix,
        Some(KeyName::SourceVpce) => Key::SourceVpce,
        Some(KeyName::Referer) => Key::Referer,
        Some(KeyName::SourceIp) | None => Key::SourceIp,
    }
}

// What a string under an operator is.
pub(crate) fn string_kind(operator: Operator) -> Wish
    ensures { result ≡ string_kind (row_of operator).sort }
{
    match operator_row(operator).sort {
        Sort::Text => Wish::Value,
        Sort::Address => Wish::Network,
    }
}
