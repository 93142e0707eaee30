//! Says how items tell their length.

ghost use Rattle.std.specs.Prelude.{◌≡◌, length};
ghost use Rattle.framing.specs.Rules.{IsSound, Rule};

/// How the items of one kind tell their length: in a header, whose first bytes, the lead, are
/// checked as soon as they are there. A kind without such a check has a lead of no bytes.
pub trait Framing {
    /// Why no item has a lead or a header.
    type Fault: Drop;

    ghost rule: { Self → Rule Self.Fault };

    /// Returns how many bytes a lead has.
    fn lead_len(&self) -> usize
        ensures { result ≡ (rule self.now).lead };

    /// Checks a lead.
    ///
    /// # Errors
    ///
    /// Returns the fault of a lead that no item has.
    fn check_lead(&self, lead: &[u8]) -> Result<(), Self::Fault>
        requires { length lead.now ≡ (rule self.now).lead }
        ensures { result ≡ (rule self.now).check lead.now };

    /// Returns how many bytes a header has, of which the lead is the first part.
    fn header_len(&self) -> usize
        ensures { result ≡ (rule self.now).header };

    /// Returns the length of the whole item with this header.
    ///
    /// # Errors
    ///
    /// Returns the fault of a header that no item has.
    fn total(&self, header: &[u8]) -> Result<usize, Self::Fault>
        requires { length header.now ≡ (rule self.now).header }
        ensures { result ≡ (rule self.now).total header.now };

    ghost sound: { (x : Self) → IsSound (rule x) };
}
