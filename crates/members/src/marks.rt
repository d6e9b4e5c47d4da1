// The members met in an object, a bit each.
ghost use Rattle.std.specs.Prelude.{◌≡◌, suc, drop};
ghost use Rattle.json_text.specs.Machinery.Pieces.{content_of};
ghost use Rattle.members.specs.Machinery.Verdicts.{is_seen, add};
ghost use Rattle.members.specs.Machinery.States.{Meets};

use crate::names::Name;
use refusals::Reason;

/// The members of an object that were met.
#[derive(Clone, Copy, Debug, PartialEq, Eq)]
pub struct Marks {
    /// A bit for each, at the place as which it counts.
    pub bits: u16,
}

impl Marks {
    /// None was met.
    pub(crate) const NONE: Marks = Marks { bits: 0 };

    /// A member was met.
    #[tactic(auto, unfolding(crate::specs::Machinery::Verdicts::is_seen))]
    pub(crate) fn is_seen<N: Name>(self, name: N) -> bool
        ensures { result ≡ is_seen self.bits (N.slot_of (suc (N.index name))) }
    {
        (self.bits >> name.slot()) % 2 == 1
    }

    /// One member more was met.
    pub(crate) fn with<N: Name>(self, name: N) -> Marks
        ensures { result.bits ≡ add self.bits (N.slot_of (suc (N.index name))) }
    {
        Marks {
            bits: self.bits | (1u16 << name.slot()),
        }
    }

    /// The name that the string at a place says, and the marks with it; 21 where it is unknown or was met before.
    pub(crate) fn meet<N: Name>(self, text: &[u8], from: usize) -> Result<(N, Marks), Reason>
        ensures { Meets N.index N.slot_of (N.kind_of (content_of (drop from text.now))) self.bits result }
    {
        let name = N::named(text, from).ok_or(Reason::WrongName)?;
        if self.is_seen(name) {
            Err(Reason::WrongName)
        } else {
            Ok((name, self.with(name)))
        }
    }
}
