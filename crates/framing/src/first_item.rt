//! Reads the first of the items that bytes hold one after another.

ghost use Rattle.std.specs.Prelude.{◌≡◌, ℕ, List};
ghost use Rattle.framing.specs.FirstItems.{HasItem, IsFirstItem};
ghost use Rattle.framing.specs.Items.{HasLead, IsRefused, IsWholeItem, WantsMore};

use crate::framing::Framing;

/// What bytes begin with, as `read_item` returns it.
#[derive(Drop)]
pub enum FirstItem<'a, E> {
    /// An item, and the bytes after it.
    Whole {
        /// The item.
        item: &'a [u8],
        /// The bytes after it.
        rest: &'a [u8],
    },
    /// Fewer bytes than a lead or a header has, or than it announces.
    Open {
        /// How many more bytes belong to the lead, to the header, or to what it announces. At
        /// least 1.
        wanted: usize,
    },
    /// A lead or a header that no item has.
    Bad(E),
}

/// Reads the header at the front of `bytes`, behind a lead that passes, and cuts them where it says
/// that the item ends.
fn read_led<'a, F: Framing>(framing: &F, bytes: &'a [u8]) -> FirstItem<'a, F::Fault>
    requires { HasLead (F.rule framing.now) bytes.now }
    ensures { IsFirstItem (F.rule framing.now) bytes.now result }
{
    let len = framing.header_len();
    if bytes.len() < len {
        let wanted = len - bytes.len();
        return FirstItem::Open { wanted };
    }
    match framing.total(&bytes[..len]) {
        Err(fault) => FirstItem::Bad(fault),
        Ok(total) => {
            if bytes.len() < total {
                let wanted = total - bytes.len();
                FirstItem::Open { wanted }
            } else {
                let (item, rest) = bytes.split_at(total);
                FirstItem::Whole { item, rest }
            }
        }
    }
}

/// Checks the lead at the front of `bytes`, and reads the item behind it.
fn read<'a, F: Framing>(framing: &F, bytes: &'a [u8]) -> FirstItem<'a, F::Fault>
    ensures { IsFirstItem (F.rule framing.now) bytes.now result }
{
    let len = framing.lead_len();
    if bytes.len() < len {
        let wanted = len - bytes.len();
        return FirstItem::Open { wanted };
    }
    match framing.check_lead(&bytes[..len]) {
        Err(fault) => FirstItem::Bad(fault),
        Ok(()) => read_led(framing, bytes),
    }
}

/// Returns the item at the front of `bytes`, and the bytes after it. Returns `Open` if `bytes` end
/// before the lead does, before the header, or before what it announces, and `Bad` if no item has
/// the lead or the header. Takes no memory.
pub fn read_item<'a, F: Framing>(framing: &F, bytes: &'a [u8]) -> FirstItem<'a, F::Fault>
    ensures first { IsFirstItem (F.rule framing.now) bytes.now result }
    ensures whole { (item rest : List ℕ) → IsWholeItem (F.rule framing.now) bytes.now item rest
        → HasItem item rest result }
    ensures too_few { (n : ℕ) → WantsMore (F.rule framing.now) bytes.now n
        → result ≡ FirstItem.Open n }
    ensures refused { (fault : F.Fault) → IsRefused (F.rule framing.now) bytes.now fault
        → result ≡ FirstItem.Bad fault }
{
    read(framing, bytes)
}
