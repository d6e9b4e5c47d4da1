// What a record says: effects, columns, operators and keys by name, and the item that a record holds.
ghost use Rattle.std.specs.Prelude.{◌≡◌};
ghost use Rattle.stored.specs.Items.{column_place, column_negated, key_code, key_of, key_sort};

/// The effect of a statement.
#[derive(Clone, Copy, Debug, PartialEq, Eq)]
pub enum Effect {
    Deny,
    Allow,
}

/// The three elements of a statement, and their Not-forms.
#[derive(Clone, Copy, Debug, PartialEq, Eq)]
pub enum Column {
    Principal,
    Action,
    Resource,
    NotPrincipal,
    NotAction,
    NotResource,
}

/// The six operators, and their IfExists forms.
#[derive(Clone, Copy, Debug, PartialEq, Eq)]
pub enum Operator {
    StringEquals,
    StringNotEquals,
    StringLike,
    StringNotLike,
    IpAddress,
    NotIpAddress,
    StringEqualsIfExists,
    StringNotEqualsIfExists,
    StringLikeIfExists,
    StringNotLikeIfExists,
    IpAddressIfExists,
    NotIpAddressIfExists,
}

/// The keys of conditions.
#[derive(Clone, Copy, Debug, PartialEq, Eq)]
pub enum Key {
    SourceVpc,
    Prefix,
    SourceVpce,
    Referer,
    SourceIp,
}

/// What a key holds, and what a list of a condition on it is made of: values or networks.
#[derive(Clone, Copy, Debug, PartialEq, Eq)]
pub enum Sort {
    Text,
    Address,
}

/// What a record says. The bytes of a value stand beside its item.
#[derive(Clone, Copy, Debug, PartialEq, Eq)]
pub enum Item {
    /// The number of statements.
    Start(u8),
    /// A statement begins, with its effect.
    Statement(Effect),
    /// An element begins.
    Column(Column),
    /// A condition begins.
    Condition(Operator, Key),
    /// The address, high byte first in a record, and the prefix length.
    Network(u32, u8),
    /// A value, whose bytes stand beside the item.
    Value,
    /// The table ends.
    End,
}

/// The code of an effect.
impl From<Effect> for u8 {
    ghost use Rattle.std.specs.Prelude.{◌≡◌};
    ghost use Rattle.stored.specs.Items.{effect_code};

    ghost from_gives = { λ effect code. code ≡ effect_code effect };

    fn from(effect: Effect) -> u8 {
        match effect {
            Effect::Deny => 0,
            Effect::Allow => 1,
        }
    }
}

/// The code of a column.
impl From<Column> for u8 {
    ghost use Rattle.std.specs.Prelude.{◌≡◌};
    ghost use Rattle.stored.specs.Items.{column_code};

    ghost from_gives = { λ column code. code ≡ column_code column };

    fn from(column: Column) -> u8 {
        match column {
            Column::Principal => 0x00,
            Column::Action => 0x01,
            Column::Resource => 0x02,
            Column::NotPrincipal => 0x10,
            Column::NotAction => 0x11,
            Column::NotResource => 0x12,
        }
    }
}

/// Where an element stands in a statement, and which column of a request it speaks of: 0 principal, 1 action, 2 resource.
pub fn column_place(column: Column) -> usize
    ensures { result ≡ column_place column }
{
    match column {
        Column::Principal | Column::NotPrincipal => 0,
        Column::Action | Column::NotAction => 1,
        Column::Resource | Column::NotResource => 2,
    }
}

/// A Not-form.
pub fn is_negated_column(column: Column) -> bool
    ensures { result ≡ column_negated column }
{
    matches!(
        column,
        Column::NotPrincipal | Column::NotAction | Column::NotResource
    )
}

/// The code of a key.
impl From<Key> for u8 {
    ghost use Rattle.std.specs.Prelude.{◌≡◌};
    ghost use Rattle.stored.specs.Items.{key_code};

    ghost from_gives = { λ key code. code ≡ key_code key };

    fn from(key: Key) -> u8 {
        match key {
            Key::SourceVpc => 0,
            Key::Prefix => 1,
            Key::SourceVpce => 2,
            Key::Referer => 3,
            Key::SourceIp => 4,
        }
    }
}

/// The code of a key.
// stays: no plainer: other crates call it by this name
pub fn key_code(key: Key) -> u8
    ensures { result ≡ key_code key }
{
    u8::from(key)
}

// The key with a code, where one has it.
pub(crate) fn key_of(code: u8) -> Option<Key>
    ensures { result ≡ key_of code }
{
    match code {
        0 => Some(Key::SourceVpc),
        1 => Some(Key::Prefix),
        2 => Some(Key::SourceVpce),
        3 => Some(Key::Referer),
        4 => Some(Key::SourceIp),
        _ => None,
    }
}

// What a key holds.
pub(crate) fn key_sort(key: Key) -> Sort
    ensures { result ≡ key_sort key }
{
    match key {
        Key::SourceVpc | Key::Prefix | Key::SourceVpce | Key::Referer => Sort::Text,
        Key::SourceIp => Sort::Address,
    }
}
