// Which member, operator or key a string names.
ghost use Rattle.std.specs.Prelude.{◌≡◌, ◌<◌, ℕ, suc, false, List, eqb, drop};
ghost use Rattle.json_text.specs.Machinery.Pieces.{content_of};
ghost use Rattle.members.specs.Members.{top_kind, row_kind, aws_kind, operator_kind, key_kind, row_slot, itself};
ghost use Rattle.members.specs.Names.{kind_in, index_of_top, index_of_row, index_of_aws, index_of_operator, index_of_key, row_apart};
ghost use lib.Dec.{eqb-zero-suc};

use crate::folding::string_is_folded;
use json_text::pieces::string_is;

/// A member of the document.
#[derive(Clone, Copy, Debug, PartialEq, Eq)]
pub enum TopName {
    Version,
    Statement,
}

/// A member of a statement.
#[derive(Clone, Copy, Debug, PartialEq, Eq)]
pub enum RowName {
    Sid,
    Effect,
    Principal,
    NotPrincipal,
    Action,
    NotAction,
    Resource,
    NotResource,
    Condition,
}

/// The member of a principal.
#[derive(Clone, Copy, Debug, PartialEq, Eq)]
pub enum AwsName {
    Aws,
}

/// A member of a condition.
#[derive(Clone, Copy, Debug, PartialEq, Eq)]
pub enum OperatorName {
    StringEquals,
    StringNotEquals,
    StringLike,
    StringNotLike,
    IpAddress,
    NotIpAddress,
    StringEqualsIfExists,
    StringNotEqualsIfExists,
    StringLikeIfExists,
    StringNotLikeIfExists,
    IpAddressIfExists,
    NotIpAddressIfExists,
}

/// A member of an operator.
#[derive(Clone, Copy, Debug, PartialEq, Eq)]
pub enum KeyName {
    SourceVpc,
    Prefix,
    SourceVpce,
    Referer,
    SourceIp,
}

/// The names that the members of one sort of object have.
pub trait Name: Copy {
    // Its index in the list of names; the kind that a string says; as which a kind counts.
    ghost index: { Self → ℕ };

    ghost kind_of: { List ℕ → ℕ };

    ghost slot_of: { ℕ → ℕ };

    /// The name that the string at a place says.
    fn named(text: &[u8], from: usize) -> Option<Self>
        ensures { kind_in index result ≡ kind_of (content_of (drop from text.now)) };

    /// As which of the object's members it counts.
    fn slot(self) -> u8
        ensures value { result ≡ slot_of (suc (index self)) }
        ensures small { result < 16 };

    // None counts as what is no name.
    ghost apart: { (name : Self) → eqb (slot_of 0) (slot_of (suc (index name))) ≡ false };
}

impl Name for TopName {
    ghost index = { index_of_top };

    ghost kind_of = { top_kind };

    ghost slot_of = { itself };

    ghost apart = { λ name. eqb-zero-suc _ };

    fn named(text: &[u8], from: usize) -> Option<TopName> {
        top_name(text, from)
    }

    fn slot(self) -> u8 {
        self as u8 + 1
    }
}

impl Name for RowName {
    ghost index = { index_of_row };

    ghost kind_of = { row_kind };

    ghost slot_of = { row_slot };

    ghost apart = { row_apart };

    fn named(text: &[u8], from: usize) -> Option<RowName> {
        row_name(text, from)
    }

    // A form and its Not-form count as one.
    fn slot(self) -> u8 {
        match self {
            RowName::Sid => 1,
            RowName::Effect => 2,
            RowName::Principal | RowName::NotPrincipal => 3,
            RowName::Action | RowName::NotAction => 4,
            RowName::Resource | RowName::NotResource => 5,
            RowName::Condition => 6,
        }
    }
}

impl Name for AwsName {
    ghost index = { index_of_aws };

    ghost kind_of = { aws_kind };

    ghost slot_of = { itself };

    ghost apart = { λ name. eqb-zero-suc _ };

    fn named(text: &[u8], from: usize) -> Option<AwsName> {
        aws_name(text, from)
    }

    fn slot(self) -> u8 {
        self as u8 + 1
    }
}

impl Name for OperatorName {
    ghost index = { index_of_operator };

    ghost kind_of = { operator_kind };

    ghost slot_of = { itself };

    ghost apart = { λ name. eqb-zero-suc _ };

    fn named(text: &[u8], from: usize) -> Option<OperatorName> {
        operator_name(text, from)
    }

    fn slot(self) -> u8 {
        self as u8 + 1
    }
}

impl Name for KeyName {
    ghost index = { index_of_key };

    ghost kind_of = { key_kind };

    ghost slot_of = { itself };

    ghost apart = { λ name. eqb-zero-suc _ };

    fn named(text: &[u8], from: usize) -> Option<KeyName> {
        key_name(text, from)
    }

    fn slot(self) -> u8 {
        self as u8 + 1
    }
}

/// The member of the document that the string at a place names.
#[tactic(auto, unfolding(crate::specs::Members::top_kind, crate::specs::Members::top_names))]
pub fn top_name(text: &[u8], from: usize) -> Option<TopName>
    ensures { kind_in index_of_top result ≡ top_kind (content_of (drop from text.now)) }
{
    if string_is(text, from, b"Version") {
        Some(TopName::Version)
    } else if string_is(text, from, b"Statement") {
        Some(TopName::Statement)
    } else {
        None
    }
}

/// The member of a statement that the string at a place names.
#[tactic(auto, unfolding(crate::specs::Members::row_kind, crate::specs::Members::row_names))]
pub fn row_name(text: &[u8], from: usize) -> Option<RowName>
    ensures { kind_in index_of_row result ≡ row_kind (content_of (drop from text.now)) }
{
    if string_is(text, from, b"Sid") {
        Some(RowName::Sid)
    } else if string_is(text, from, b"Effect") {
        Some(RowName::Effect)
    } else if string_is(text, from, b"Principal") {
        Some(RowName::Principal)
    } else if string_is(text, from, b"NotPrincipal") {
        Some(RowName::NotPrincipal)
    } else if string_is(text, from, b"Action") {
        Some(RowName::Action)
    } else if string_is(text, from, b"NotAction") {
        Some(RowName::NotAction)
    } else if string_is(text, from, b"Resource") {
        Some(RowName::Resource)
    } else if string_is(text, from, b"NotResource") {
        Some(RowName::NotResource)
    } else if string_is(text, from, b"Condition") {
        Some(RowName::Condition)
    } else {
        None
    }
}

/// The member of a principal that the string at a place names.
#[tactic(auto, unfolding(crate::specs::Members::aws_kind))]
pub fn aws_name(text: &[u8], from: usize) -> Option<AwsName>
    ensures { kind_in index_of_aws result ≡ aws_kind (content_of (drop from text.now)) }
{
    if string_is(text, from, b"AWS") {
        Some(AwsName::Aws)
    } else {
        None
    }
}

/// The operator that the string at a place names.
#[tactic(auto, unfolding(crate::specs::Members::operator_kind, crate::specs::Members::operator_names))]
pub fn operator_name(text: &[u8], from: usize) -> Option<OperatorName>
    ensures { kind_in index_of_operator result ≡ operator_kind (content_of (drop from text.now)) }
{
    if string_is(text, from, b"StringEquals") {
        Some(OperatorName::StringEquals)
    } else if string_is(text, from, b"StringNotEquals") {
        Some(OperatorName::StringNotEquals)
    } else if string_is(text, from, b"StringLike") {
        Some(OperatorName::StringLike)
    } else if string_is(text, from, b"StringNotLike") {
        Some(OperatorName::StringNotLike)
    } else if string_is(text, from, b"IpAddress") {
        Some(OperatorName::IpAddress)
    } else if string_is(text, from, b"NotIpAddress") {
        Some(OperatorName::NotIpAddress)
    } else if string_is(text, from, b"StringEqualsIfExists") {
        Some(OperatorName::StringEqualsIfExists)
    } else if string_is(text, from, b"StringNotEqualsIfExists") {
        Some(OperatorName::StringNotEqualsIfExists)
    } else if string_is(text, from, b"StringLikeIfExists") {
        Some(OperatorName::StringLikeIfExists)
    } else if string_is(text, from, b"StringNotLikeIfExists") {
        Some(OperatorName::StringNotLikeIfExists)
    } else if string_is(text, from, b"IpAddressIfExists") {
        Some(OperatorName::IpAddressIfExists)
    } else if string_is(text, from, b"NotIpAddressIfExists") {
        Some(OperatorName::NotIpAddressIfExists)
    } else {
        None
    }
}

/// The key that the string at a place names, in whatever case.
#[tactic(auto, unfolding(crate::specs::Members::key_kind, crate::specs::Members::key_names))]
pub fn key_name(text: &[u8], from: usize) -> Option<KeyName>
    ensures { kind_in index_of_key result ≡ key_kind (content_of (drop from text.now)) }
{
    if string_is_folded(text, from, b"aws:sourcevpc") {
        Some(KeyName::SourceVpc)
    } else if string_is_folded(text, from, b"s3:prefix") {
        Some(KeyName::Prefix)
    } else if string_is_folded(text, from, b"aws:sourcevpce") {
        Some(KeyName::SourceVpce)
    } else if string_is_folded(text, from, b"aws:referer") {
        Some(KeyName::Referer)
    } else if string_is_folded(text, from, b"aws:sourceip") {
        Some(KeyName::SourceIp)
    } else {
        None
    }
}
